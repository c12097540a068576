//! Pages of a log, and other lists.

use helpers::Payload;
use std::alloc::{AllocError, Global};
use std::marker::Model;

/// A message of a log: its RSN, its SSN and its payload.
#[derive(Clone, Copy, Debug, PartialEq, Eq)]
pub struct LoggedMessage {
    pub number: u64,
    pub ssn: u64,
    pub payload: Payload,
}

/// A message that the receiver has: its SSN and its RSN.
#[derive(Clone, Copy, Debug, PartialEq, Eq)]
pub struct Pair {
    pub ssn: u64,
    pub number: u64,
}

/// A list: entries or pairs that fit a packet, or a part of what a process keeps.
#[derive(Drop)]
pub struct Page<T> {
    items: Vec<T>,
}

impl<T> Model for Page<T> {
    ghost use Rattle.std.specs.Prelude.{List};

    ghost Value = { List T };

    ghost view = { λ p. p.items.items };
}

impl<T> Page<T> {
    ghost use Rattle.std.specs.Prelude.{◌≡◌, []};

    /// An empty page.
    pub fn new(alloc: Global) -> Page<T>
        ensures { result ≡ [] }
    {
        Page {
            items: Vec::new(alloc),
        }
    }

    /// Its items.
    pub fn as_slice(&self) -> &[T]
        ensures { result.now ≡ self.now }
    {
        self.items.as_slice()
    }
}

impl<T: Drop> Page<T> {
    ghost use Rattle.std.specs.Prelude.{◌≡◌, ◌++◌, ◌∷◌, [], OnOk};

    /// Appends an item.
    pub fn push(&mut self, item: T) -> Result<(), AllocError>
        ensures { OnOk result (self.new ≡ self.old ++ item ∷ []) }
    {
        match self.items.push(item) {
            Ok(()) => Ok(()),
            Err(_) => Err(AllocError),
        }
    }
}

impl Page<u8> {
    ghost use Rattle.std.specs.Prelude.{◌≡◌, IfOk};

    /// A page of the same bytes.
    pub fn copied(alloc: Global, bytes: &[u8]) -> Result<Page<u8>, AllocError>
        ensures { IfOk result (λ p. p ≡ bytes.now) }
    {
        Ok(Page {
            items: Vec::from_slice(alloc, bytes)?,
        })
    }
}

/// The flags of a page.
#[derive(Clone, Copy, Debug, PartialEq, Eq)]
pub struct Flags {
    pub bits: u8,
}

impl Flags {
    ghost use Rattle.std.specs.Prelude.{◌≡◌};
    ghost use Rattle.packets.specs.Packet.{is_done, is_lost, is_exact, flags_of};

    /// Flags: the page is the last, the teller is recovering itself, failures came one at a time as
    /// far as the teller knows.
    pub fn new(done: bool, lost: bool, exact: bool) -> Flags
        ensures { result ≡ flags_of done lost exact }
    {
        let mut bits = 0;
        if done {
            bits += 1;
        }
        if lost {
            bits += 2;
        }
        if exact {
            bits += 4;
        }
        Flags { bits }
    }

    /// Whether the page is the last one.
    pub fn done(self) -> bool
        ensures { result ≡ is_done self }
    {
        self.bits % 2 == 1
    }

    /// Whether the teller is recovering itself.
    pub fn lost(self) -> bool
        ensures { result ≡ is_lost self }
    {
        self.bits / 2 % 2 == 1
    }

    /// Whether failures came one at a time, as far as the teller knows.
    pub fn exact(self) -> bool
        ensures { result ≡ is_exact self }
    {
        self.bits / 4 % 2 == 1
    }
}
