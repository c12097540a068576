//! Packets on the wire.

use crate::ink::Point;
use crate::page::{column_x, lane_y};
use crate::sign::Sign;

/// The kind of a packet.
#[derive(Clone, Copy, PartialEq, Eq)]
pub enum WireKind {
    Message,
    Number,
    Acknowledgement,
}

/// A packet on the wire, from line to line.
#[derive(Clone, Copy)]
pub struct PacketLine {
    pub kind: WireKind,
    pub from: u8,
    pub to: u8,
    /// The column where it went on the wire. For a copy, where the original did.
    pub column: usize,
    /// The column where a copy was made.
    pub copied: Option<usize>,
}

impl PacketLine {
    /// A packet that goes on the wire in this column.
    pub(crate) fn new(kind: WireKind, from: u8, to: u8, column: usize) -> PacketLine {
        PacketLine {
            kind,
            from,
            to,
            column,
            copied: None,
        }
    }

    /// The style of its arrow. A message to the outside is an output.
    pub(crate) fn class(&self) -> &'static str {
        match self.kind {
            WireKind::Message => { if self.to == 0 { "out" } else { "message" } }
            WireKind::Number => "number",
            WireKind::Acknowledgement => "ack",
        }
    }

    /// The legend's sign for it.
    pub(crate) fn sign(&self) -> Sign {
        match self.kind {
            WireKind::Message => {
                if self.to == 0 {
                    Sign::Output
                } else {
                    Sign::Message
                }
            }
            WireKind::Number => Sign::Number,
            WireKind::Acknowledgement => Sign::Acknowledgement,
        }
    }

    /// The style of an arrow without its head.
    pub(crate) fn headless(&self) -> &'static str {
        match self.class() {
            "out" => "out cut",
            "message" => "message cut",
            "number" => "number cut",
            _ => "ack cut",
        }
    }

    /// Where its arrow begins.
    pub(crate) fn start(&self) -> Point {
        Point {
            x: column_x(self.column),
            y: lane_y(self.from),
        }
    }

    /// Where its arrow ends if it arrives in this column.
    pub(crate) fn end(&self, column: usize) -> Point {
        Point {
            x: column_x(column),
            y: lane_y(self.to),
        }
    }

    /// Where its arrow ends if it has come half its way by this column.
    pub(crate) fn half(&self, column: usize) -> Point {
        let y = (lane_y(self.from) / 2).saturating_add(lane_y(self.to) / 2);
        Point {
            x: column_x(column),
            y,
        }
    }

    /// The point where its arrow to this end crosses a column.
    pub(crate) fn point_at(&self, column: usize, end: Point) -> Point {
        let start = self.start();
        let x = column_x(column);
        let length = end.x.saturating_sub(start.x).max(1);
        let way = x.saturating_sub(start.x).min(length);
        let rise = start.y.abs_diff(end.y).saturating_mul(way) / length;
        let y = if start.y < end.y {
            start.y.saturating_add(rise)
        } else {
            start.y.saturating_sub(rise)
        };
        Point { x, y }
    }
}
