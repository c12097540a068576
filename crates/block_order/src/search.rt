//! A search for an order. Its result is checked elsewhere.

use crate::slots::ways_at;
use decode::Insn;
use std::alloc::{AllocError, Global};

/// How far the search of a slot is.
#[derive(Clone, Copy)]
enum Mark {
    New,
    /// It is on the way from slot 0, at this place of it.
    Open(usize),
    /// All that it leads to has been found.
    Done,
}

/// A depth-first search from slot 0 on.
#[derive(Drop)]
pub struct Search {
    marks: Vec<Mark>,
    /// The slots on the way from slot 0.
    pub open: Vec<usize>,
    /// The slots that a call can come to, each after those that it leads to.
    pub finished: Vec<usize>,
    /// If the search ended at a cycle: the place on the way to which its last slot leads.
    pub cycle: Option<usize>,
}

impl Search {
    /// The mark of a slot; a slot after the end leads nowhere.
    fn mark(&self, slot: usize) -> Mark {
        match self.marks.get(slot) {
            Some(mark) => *mark,
            None => Mark::Done,
        }
    }

    /// Marks a slot.
    fn set(&mut self, slot: usize, mark: Mark) {
        if slot < self.marks.len() {
            self.marks[slot] = mark;
        }
    }

    /// Goes on to a slot.
    fn enter(&mut self, slot: usize) -> Result<(), AllocError> {
        let place = self.open.len();
        self.open.push(slot)?;
        self.set(slot, Mark::Open(place));
        Ok(())
    }

    /// Goes back from the last slot of the way.
    fn leave(&mut self, last: usize) -> Result<(), AllocError> {
        self.open.pop();
        self.set(last, Mark::Done);
        self.finished.push(last)?;
        Ok(())
    }

    /// Goes on from the last slot of the way to one to which it leads, if that is new; else goes back, or ends at a
    /// cycle.
    fn go(&mut self, last: usize, to: usize) -> Result<(), AllocError> {
        match self.mark(to) {
            Mark::New => self.enter(to),
            Mark::Open(place) => {
                self.cycle = Some(place);
                Ok(())
            }
            Mark::Done => self.leave(last),
        }
    }

    /// Whether this way leads to nothing new.
    fn is_done(&self, way: Option<usize>) -> bool {
        match way {
            Some(to) => matches!(self.mark(to), Mark::Done),
            None => true,
        }
    }

    /// Goes on from the last slot of the way to the first new one, by the jump first; or goes back if there is none.
    fn step(&mut self, last: usize, slots: &[Option<Insn>]) -> Result<(), AllocError> {
        let (jump, next) = ways_at(slots, last);
        let way = if self.is_done(jump) { next } else { jump };
        match way {
            Some(to) => self.go(last, to),
            None => self.leave(last),
        }
    }

    /// The slot to go on from; none at the end of the search.
    fn last(&self) -> Option<usize> {
        match (self.open.last(), self.cycle) {
            (Some(last), None) => Some(*last),
            _ => None,
        }
    }

    /// Goes on from slot 0 until all is found, or a cycle.
    fn run(&mut self, slots: &[Option<Insn>]) -> Result<(), AllocError> {
        self.enter(0)?;
        // Each step enters a slot or leaves one, and none is entered twice.
        for _ in 0..slots.len().saturating_mul(2) {
            let Some(last) = self.last() else {
                break;
            };
            self.step(last, slots)?;
        }
        Ok(())
    }
}

/// Searches all that slot 0 leads to, by jumps first.
pub(crate) fn search_slots(alloc: Global, slots: &[Option<Insn>]) -> Result<Search, AllocError> {
    let mut search = Search {
        marks: Vec::from_elem(alloc, Mark::New, slots.len())?,
        open: Vec::new(alloc),
        finished: Vec::new(alloc),
        cycle: None,
    };
    search.run(slots)?;
    Ok(search)
}
