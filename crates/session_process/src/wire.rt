//! The packets on the wire, each under a key.

ghost use Rattle.std.specs.Prelude.{◌≡◌, ◌<◌, ◌≤◌, ℕ, [], length, Some, None, is_some, IsSome, IfOk, OnErr, option_copied, slice_index_or, count_by};
ghost use Rattle.session_process.specs.Wire.{Puts, Ascend, AreListed};

use limits::PACKETS;
use slab::Slab;
use std::alloc::{AllocError, Global};
use std::marker::Model;
use world::Packet;

/// The packets on the wire. A new one gets the key that was vacated last, or the least unused one.
#[derive(Drop)]
pub struct Wire {
    slab: Slab<Packet>,
    /// The keys with a packet, in ascending order.
    keys: Vec<usize>,
}

impl Model for Wire {
    ghost use Rattle.std.specs.Prelude.{List, Option};
    ghost use Rattle.world.specs.declared.packet.Packet.{Packet};

    ghost Value = { List (Option Packet) };

    ghost view = { λ w. w.slab.slots };

    ghost use Rattle.session_process.specs.Wire.{AreListed};

    ghost invariant = { λ w. AreListed w.slab.slots w.keys.items };
}

impl Wire {
    /// An empty wire.
    pub fn new(alloc: Global) -> Wire
        ensures { result ≡ [] }
    {
        Wire {
            slab: Slab::new(alloc),
            keys: Vec::new(alloc),
        }
    }

    /// How many packets there are.
    pub fn len(&self) -> usize
        ensures { result ≡ count_by is_some self.now }
    {
        self.slab.len()
    }

    /// The keys that have packets, in ascending order.
    pub fn keys(&self) -> &[usize]
        ensures { AreListed self.now result.now }
    {
        self.keys.as_slice()
    }

    /// The packet under this key.
    pub fn peek(&self, key: usize) -> Option<&Packet>
        ensures { option_copied result ≡ slice_index_or self.now key None }
    {
        self.slab.get(key)
    }

    /// A copy of the packet under this key.
    pub fn get(&self, key: usize) -> Option<Packet>
        ensures { result ≡ slice_index_or self.now key None }
    {
        self.slab.get(key).copied()
    }

    /// Puts a packet under a vacant key. If all keys are in use, it is refused as for lack of
    /// memory.
    pub fn place(&mut self, packet: Packet) -> Result<usize, AllocError>
        ensures key { IfOk result (λ key. key < PACKETS) }
        ensures puts { IfOk result (λ key. Puts self.old self.new key None (Some packet)) }
        ensures err { OnErr result (self.new ≡ self.old) }
    {
        self.slab.reserve(1)?;
        let key = self.slab.vacant_key();
        if key >= PACKETS {
            return Err(AllocError);
        }
        let place = rank(self.keys.as_slice(), key);
        self.keys.insert(place, key)?;
        Ok(self.slab.insert_reserved(packet))
    }

    /// Replaces the packet under this key.
    pub fn replace(&mut self, key: usize, packet: Packet)
        requires { IsSome (slice_index_or self.old key None) }
        ensures { Puts self.old self.new key (slice_index_or self.old key None) (Some packet) }
    {
        self.slab.remove(key);
        self.slab.insert_reserved(packet);
    }

    /// Takes away the packet under a key.
    pub fn remove(&mut self, key: usize)
        ensures { Puts self.old self.new key (slice_index_or self.old key None) None }
    {
        if self.slab.try_remove(key).is_some() {
            let place = rank(self.keys.as_slice(), key);
            self.keys.remove(place);
        }
    }
}

/// How many of these keys are below this one.
fn rank(keys: &[usize], key: usize) -> usize
    requires { Ascend keys.now }
    ensures within { result ≤ length keys.now }
    ensures below { (i : ℕ) → i < result → slice_index_or keys.now i 0 < key }
    ensures above { (i : ℕ) → result ≤ i → i < length keys.now → key ≤ slice_index_or keys.now i 0 }
{
    keys.partition_point(|other| *other < key)
}
