//! How packets are drawn.

use crate::ink::{Point, push_line, push_mark};
use crate::label::{Side, push_number, push_word};
use crate::picture::Picture;
use crate::sign::Sign;
use crate::wire::{PacketLine, WireKind};
use std::alloc::AllocError;
use world::Answer;

impl Picture {
    /// A message goes on the wire.
    pub(crate) fn transmit(
        &mut self,
        column: usize,
        (from, to): (u8, u8),
        ssn: u32,
        key: usize,
    ) -> Result<(), AllocError> {
        if !self.has(from) || !self.has(to) {
            return Ok(());
        }
        let wire = PacketLine::new(WireKind::Message, from, to, column);
        let side = Side::away(from, to);
        push_number(&mut self.marks, "t", side, column, from, "ssn ", ssn)?;
        self.place(key, wire)
    }

    /// A packet goes on the wire under its key. It is drawn if its kind is shown.
    pub(crate) fn place(&mut self, key: usize, wire: PacketLine) -> Result<(), AllocError> {
        if !self.only_messages || wire.kind == WireKind::Message {
            self.wires.insert(key, wire)?;
        }
        Ok(())
    }

    /// A packet is copied. The copy begins where the packet began.
    pub(crate) fn copy(&mut self, column: usize, key: usize, new: usize) -> Result<(), AllocError> {
        let Some(wire) = self.wires.get(&key).copied() else {
            return Ok(());
        };
        let copied = Some(column);
        self.place(new, PacketLine { copied, ..wire })
    }

    /// A packet is lost half way.
    pub(crate) fn lose(&mut self, column: usize, key: usize) -> Result<(), AllocError> {
        let Some(wire) = self.wires.swap_remove(&key) else {
            return Ok(());
        };
        let end = wire.half(column);
        push_line(&mut self.arrows, wire.headless(), wire.start(), end)?;
        push_mark(&mut self.marks, "lost", end)?;
        self.legend.note(wire.sign())?;
        self.legend.note(Sign::Lost)?;
        self.mark_copy(wire, end)
    }

    /// A packet arrives.
    pub(crate) fn arrive(
        &mut self,
        column: usize,
        key: usize,
        answer: Answer,
    ) -> Result<(), AllocError> {
        let Some(wire) = self.wires.swap_remove(&key) else {
            return Ok(());
        };
        let end = wire.end(column);
        let class = if answer == Answer::Unreachable {
            wire.headless()
        } else {
            wire.class()
        };
        push_line(&mut self.arrows, class, wire.start(), end)?;
        self.legend.note(wire.sign())?;
        self.mark_copy(wire, end)?;
        self.receive(column, wire, answer)
    }

    /// Marks the answer to an arrival at the end of its arrow.
    fn receive(
        &mut self,
        column: usize,
        wire: PacketLine,
        answer: Answer,
    ) -> Result<(), AllocError> {
        let end = wire.end(column);
        let side = Side::away(wire.to, wire.from);
        let (here, back) = (wire.to, wire.from);
        let word = match answer {
            Answer::Started(serial) => {
                return self.begin(column, here, serial, Some(back));
            }
            Answer::Numbered(new) => {
                return self.place(
                    new,
                    PacketLine::new(WireKind::Acknowledgement, here, back, column),
                );
            }
            Answer::Shown(ssn) => {
                push_mark(&mut self.marks, "shown", end)?;
                return push_number(&mut self.marks, "s", Side::Above, column, here, "out ", ssn);
            }
            Answer::Duplicate(new) => {
                self.place(new, PacketLine::new(WireKind::Number, here, back, column))?;
                "again"
            }
            Answer::ShownBefore => "again",
            Answer::Early => "early",
            Answer::Stale => "stale",
            Answer::Unreachable => {
                push_mark(&mut self.marks, "lost", end)?;
                self.legend.note(Sign::Lost)?;
                "down"
            }
            _ => return Ok(()),
        };
        push_word(&mut self.marks, "t", side, column, here, word)
    }

    /// Draws a ring where a packet was copied.
    pub(crate) fn mark_copy(&mut self, wire: PacketLine, end: Point) -> Result<(), AllocError> {
        let Some(column) = wire.copied else {
            return Ok(());
        };
        self.legend.note(Sign::Copy)?;
        push_mark(&mut self.marks, "copy", wire.point_at(column, end))
    }
}
