//! How processes are drawn: their lines, handler calls, checkpoints, crashes and recoveries.

use crate::ink::{Point, push_box, push_count, push_line};
use crate::label::{Side, push_number};
use crate::lane::{Lane, OpenCall, Phase};
use crate::page::{column_x, lane_y};
use crate::picture::Picture;
use crate::sign::Sign;
use crate::wire::{PacketLine, WireKind};
use std::alloc::AllocError;
use world::Answer;

impl Picture {
    /// A handler call begins, for a sender's message or a replayed one.
    pub(crate) fn begin(
        &mut self,
        column: usize,
        process: u8,
        serial: u32,
        sender: Option<u8>,
    ) -> Result<(), AllocError> {
        self.stop(process, column_x(column), true)?;
        if let Some(lane) = self.lanes.get_mut(usize::from(process)) {
            lane.job = Some(OpenCall {
                serial,
                column,
                sender,
            });
        }
        Ok(())
    }

    /// Draws the open handler call of a process, if there is one, up to here, as an open box or a
    /// closed one.
    pub(crate) fn stop(
        &mut self,
        process: u8,
        end: usize,
        is_open: bool,
    ) -> Result<(), AllocError> {
        let Some(job) = self.take_job(process) else {
            return Ok(());
        };
        let start = point(job.column, process);
        push_box(&mut self.boxes, job.class(), start, end, is_open)?;
        self.legend.note(job.sign())?;
        if is_open {
            self.legend.note(Sign::Open)?;
        }
        let at = Point {
            x: start.x.saturating_add(3),
            y: start.y.saturating_add(4),
        };
        push_count(&mut self.boxes, "j", at, "#", u64::from(job.serial))
    }

    /// A handler call is finished.
    pub(crate) fn finish(
        &mut self,
        column: usize,
        process: u8,
        answer: Answer,
    ) -> Result<(), AllocError> {
        let sender = self.sender(process);
        self.stop(process, column_x(column), false)?;
        match answer {
            Answer::Committed { rsn, key } => self.commit(column, process, sender, rsn, key),
            Answer::Replayed(rsn) => self.replayed(column, process, rsn),
            _ => Ok(()),
        }
    }

    /// A message is received, and its RSN goes on the wire to its sender.
    fn commit(
        &mut self,
        column: usize,
        process: u8,
        sender: Option<u8>,
        rsn: u32,
        key: usize,
    ) -> Result<(), AllocError> {
        let Some(sender) = sender else {
            return Ok(());
        };
        let side = Side::away(process, sender);
        push_number(&mut self.marks, "t", side, column, process, "rsn ", rsn)?;
        self.place(
            key,
            PacketLine::new(WireKind::Number, process, sender, column),
        )
    }

    /// A message is replayed.
    fn replayed(&mut self, column: usize, process: u8, rsn: u32) -> Result<(), AllocError> {
        push_number(
            &mut self.marks,
            "t",
            Side::Below,
            column,
            process,
            "rsn ",
            rsn,
        )?;
        match self.phase(process) {
            Phase::Replaying { kept, alone } if rsn >= kept => self.restore(column, process, alone),
            _ => Ok(()),
        }
    }

    /// A process saves a checkpoint.
    pub(crate) fn checkpoint(&mut self, process: u8, length: u32) -> Result<(), AllocError> {
        let Some(lane) = self.lanes.get_mut(usize::from(process)) else {
            return Ok(());
        };
        lane.saved = length;
        self.legend.note(Sign::Saved)
    }

    /// A process crashes.
    pub(crate) fn crash(&mut self, column: usize, process: u8) -> Result<(), AllocError> {
        if !self.has(process) {
            return Ok(());
        }
        self.legend.note(Sign::Crash)?;
        self.stop(process, column_x(column), true)?;
        self.turn(column, process, Phase::Down)
    }

    /// A process comes back with `kept` messages, alone or with all others up.
    pub(crate) fn recover(
        &mut self,
        column: usize,
        process: u8,
        kept: u32,
        alone: bool,
    ) -> Result<(), AllocError> {
        let Some(lane) = self.lanes.get(usize::from(process)) else {
            return Ok(());
        };
        let saved = lane.saved;
        self.legend.note(Sign::Recovery)?;
        if saved < kept {
            self.turn(column, process, Phase::Replaying { kept, alone })
        } else {
            self.restore(column, process, alone)
        }
    }

    /// A process restores the RSNs of its messages to a peer.
    pub(crate) fn resync(
        &mut self,
        column: usize,
        process: u8,
        peer: u8,
        count: u32,
    ) -> Result<(), AllocError> {
        if !self.has(process) || !self.has(peer) {
            return Ok(());
        }
        let at = point(column, process);
        push_line(&mut self.arrows, "sync", point(column, peer), at)?;
        self.legend.note(Sign::Sync)?;
        let side = Side::away(process, peer);
        push_number(&mut self.marks, "t", side, column, process, "sync ", count)?;
        match self.phase(process) {
            Phase::Restoring { left } if left > 1 => {
                self.set_phase(process, Phase::Restoring { left: left - 1 });
                Ok(())
            }
            Phase::Restoring { .. } => self.turn(column, process, Phase::Up),
            _ => Ok(()),
        }
    }

    /// A process begins to restore RSNs. If there are no peers, it is up.
    fn restore(&mut self, column: usize, process: u8, alone: bool) -> Result<(), AllocError> {
        let left = self.peers(process, alone);
        let phase = if left == 0 {
            Phase::Up
        } else {
            Phase::Restoring { left }
        };
        self.turn(column, process, phase)
    }

    /// Draws the line of a process up to this column. From there on it shows another phase.
    fn turn(&mut self, column: usize, process: u8, phase: Phase) -> Result<(), AllocError> {
        let Some(lane) = self.lanes.get(usize::from(process)) else {
            return Ok(());
        };
        let end = point(column, process);
        let start = Point {
            x: lane.since,
            y: end.y,
        };
        push_line(&mut self.lines, lane.phase.class(), start, end)?;
        if phase.class() == "back" {
            self.legend.note(Sign::Back)?;
        }
        self.begin_phase(process, end.x, phase);
        Ok(())
    }
}

/// The point of a line in a column.
fn point(column: usize, process: u8) -> Point {
    Point {
        x: column_x(column),
        y: lane_y(process),
    }
}
