//! The drawing of entries, one after the other.

use crate::ink::{Point, push_line};
use crate::lane::{Lane, OpenCall, Phase};
use crate::legend::Legend;
use crate::page::{column_x, lane_y};
use crate::sign::Sign;
use crate::wire::PacketLine;
use indexmap::IndexMap;
use std::alloc::{AllocError, Global};
use world::{Answer, Call, Entry};

/// The drawing so far, in layers, and what isn't finished yet.
#[derive(Drop)]
pub struct Picture {
    /// The lines by number. The first is the outside's.
    pub lanes: Vec<Lane>,
    /// The packets on the wire, by their keys.
    pub wires: IndexMap<usize, PacketLine>,
    /// The lowest layer: the lines.
    pub lines: String,
    /// The next layer: the boxes.
    pub boxes: String,
    /// The next layer: the arrows.
    pub arrows: String,
    /// The top layer: marks and labels of packets and handler calls.
    pub marks: String,
    pub legend: Legend,
    /// Whether packets of numbers and acknowledgements are left out.
    pub only_messages: bool,
}

impl Picture {
    /// A picture of the outside and `count` processes, whose lines begin at this place.
    pub(crate) fn new(
        alloc: Global,
        count: u8,
        since: usize,
        only_messages: bool,
    ) -> Result<Picture, AllocError> {
        let mut lanes = Vec::new(alloc);
        for _ in 0..=usize::from(count) {
            lanes.push(Lane::new(since))?;
        }
        Ok(Picture {
            lanes,
            wires: IndexMap::new(alloc),
            lines: String::new(alloc),
            boxes: String::new(alloc),
            arrows: String::new(alloc),
            marks: String::new(alloc),
            legend: Legend::new(alloc),
            only_messages,
        })
    }

    /// Draws an entry in its column, without the mark that `marks` draws. An entry that names
    /// nobody who is there isn't drawn.
    pub(crate) fn enter(&mut self, column: usize, entry: &Entry) -> Result<(), AllocError> {
        match (entry.call, entry.answer) {
            (Call::Input { .. }, _) => self.legend.note(Sign::Input),
            (Call::Transmit { from, to, ssn }, Answer::Placed(key)) => {
                self.transmit(column, (from, to), ssn, key)
            }
            (Call::Copy { key }, Answer::Placed(new)) => self.copy(column, key, new),
            (Call::Lose { key }, _) => self.lose(column, key),
            (Call::Arrive { key }, answer) => self.arrive(column, key, answer),
            (Call::Finish { process }, answer) => self.finish(column, process, answer),
            (Call::Checkpoint { process }, Answer::Saved(length)) => {
                self.checkpoint(process, length)
            }
            (Call::Trim { to }, _) if self.has(to) => self.legend.note(Sign::Trim),
            (Call::Crash { process }, Answer::Crashed(_)) => self.crash(column, process),
            (Call::Recover { process }, Answer::Kept(kept)) => {
                self.recover(column, process, kept, false)
            }
            (Call::RecoverAlone { process }, Answer::Kept(kept)) => {
                self.recover(column, process, kept, true)
            }
            (Call::ReplayBegin { process }, Answer::Started(serial)) => {
                self.begin(column, process, serial, None)
            }
            (Call::Resync { process, peer }, Answer::Restored(count)) => {
                self.resync(column, process, peer, count)
            }
            _ => Ok(()),
        }
    }

    /// Draws the lines to their ends, with the handler calls that are still open. Packets that are
    /// still on the wire get half their way, a copy with its ring.
    pub(crate) fn close(&mut self, column: usize) -> Result<(), AllocError> {
        let end = column_x(column);
        for number in 0..=u8::MAX {
            let Some(lane) = self.lanes.get(usize::from(number)).copied() else {
                break;
            };
            self.close_lane(number, lane, end)?;
        }
        for place in 0..self.wires.len() {
            let Some((_, wire)) = self.wires.get_index(place) else {
                break;
            };
            let wire = *wire;
            self.close_wire(wire, column)?;
        }
        Ok(())
    }

    /// Draws a line to its end.
    fn close_lane(&mut self, number: u8, lane: Lane, end: usize) -> Result<(), AllocError> {
        self.stop(number, end, true)?;
        let y = lane_y(number);
        let start = Point { x: lane.since, y };
        let class = lane.phase.class();
        push_line(&mut self.lines, class, start, Point { x: end, y })
    }

    /// Draws half the way of a packet.
    fn close_wire(&mut self, wire: PacketLine, column: usize) -> Result<(), AllocError> {
        let half = wire.half(column);
        push_line(&mut self.arrows, wire.headless(), wire.start(), half)?;
        self.legend.note(wire.sign())?;
        self.legend.note(Sign::OnItsWay)?;
        self.mark_copy(wire, half)
    }

    /// Whether there is a line with this number.
    pub(crate) fn has(&self, number: u8) -> bool {
        usize::from(number) < self.lanes.len()
    }

    /// The phase of a process.
    pub(crate) fn phase(&self, process: u8) -> Phase {
        match self.lanes.get(usize::from(process)) {
            Some(lane) => lane.phase,
            None => Phase::Up,
        }
    }

    /// The sender of the open handler call's message.
    pub(crate) fn sender(&self, process: u8) -> Option<u8> {
        self.lanes.get(usize::from(process))?.job?.sender
    }

    /// Takes out the open handler call of a process.
    pub(crate) fn take_job(&mut self, process: u8) -> Option<OpenCall> {
        self.lanes.get_mut(usize::from(process))?.job.take()
    }

    /// Sets the phase of a process, whose line looks the same.
    pub(crate) fn set_phase(&mut self, process: u8, phase: Phase) {
        if let Some(lane) = self.lanes.get_mut(usize::from(process)) {
            lane.phase = phase;
        }
    }

    /// Sets the phase of a process, whose line looks different from here on.
    pub(crate) fn begin_phase(&mut self, process: u8, since: usize, phase: Phase) {
        if let Some(lane) = self.lanes.get_mut(usize::from(process)) {
            lane.phase = phase;
            lane.since = since;
        }
    }

    /// How many peers restore the RSNs of a process: all others, or if it came back alone those
    /// that are up.
    pub(crate) fn peers(&self, process: u8, alone: bool) -> usize {
        self.lanes
            .iter()
            .enumerate()
            .filter(|(number, lane)| {
                *number != 0
                    && *number != usize::from(process)
                    && (!alone || lane.phase == Phase::Up)
            })
            .count()
    }
}
