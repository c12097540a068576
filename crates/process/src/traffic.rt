//! Packets in and out, and what is sent again.

ghost use Rattle.std.specs.Prelude.{◌≡◌, ◌∷◌, [], false, List, IfOk, IfErr, IfNone, IfSome, OnOk, OnErr, MatchOption};
ghost use Rattle.packets.specs.declared.packet.NodePacket.{NodePacket};
ghost use Rattle.packets.specs.Format.{Fits, IsPacket};
ghost use Rattle.packets.specs.Faults.{IsReason};
ghost use Rattle.node.specs.Bytes.{IsTaken};
ghost use Rattle.process.specs.Process.{out_of};
ghost use Rattle.process.specs.Calls.{Calls, Stays, IsHanded, Ticks, Takes};
ghost use Rattle.process.specs.Packets.{IsFront, GivesBytes};
ghost use Rattle.recovery.specs.Transitions.{Passes, is_held, IsHeld};

use crate::process::Member;
use packets::{NodePacket, PacketError, decode, encode, one_packet};
use recovery::{Cause, Lifecycle};
use std::alloc::{AllocError, Global};
use std::mem::replace;

impl Member {
    /// Takes the bytes of a packet as [`Member::receive`] takes the packet. Any other bytes are
    /// refused by the first of their faults. A refusal changes nothing.
    pub fn receive_bytes(&mut self, alloc: Global, bytes: &[u8]) -> Result<(), PacketError>
        // Bytes that are taken are those of one packet.
        ensures found { OnOk result ((p : NodePacket) × IsPacket p bytes.now) }
        ensures calls { OnOk result ((p : NodePacket) → IsPacket p bytes.now → Calls (IsHanded p) self.old self.new) }
        // The bytes of a packet are taken, unless memory runs out.
        ensures only { (p : NodePacket) → IsPacket p bytes.now → IsTaken result }
        ensures refused { IfErr result (λ e. IsReason e bytes.now) }
        ensures err { OnErr result (self.new ≡ self.old) }
    {
        one_packet();
        let packet = decode(alloc, bytes)?;
        self.receive(alloc, &packet)?;
        Ok(())
    }

    /// Takes a packet. While messages are to be replayed it drops it, but in each stage it answers
    /// a peer that is recovering too. A refusal changes nothing.
    pub fn receive(&mut self, alloc: Global, packet: &NodePacket) -> Result<(), AllocError>
        ensures calls { OnOk result (Calls (IsHanded packet.now) self.old self.new) }
        ensures err { OnErr result (self.new ≡ self.old) }
    {
        hand(&mut self.lifecycle, alloc, packet)?;
        let _held = self.pass(alloc);
        Ok(())
    }

    /// Sends again what isn't answered. If memory was refused for the next stage, it tries again to
    /// go on, and says why if it still can't.
    pub fn tick(&mut self, alloc: Global) -> Result<(), Cause>
        ensures calls { Calls Ticks self.old self.new }
        ensures on { OnOk result (is_held self.new.lifecycle ≡ false) }
        ensures held { IfErr result (λ why. IsHeld why self.new.lifecycle) }
    {
        send_again(&mut self.lifecycle);
        self.pass(alloc)
    }

    /// Takes the first packet that waits to be sent, if there is one.
    pub fn take(&mut self) -> Option<NodePacket>
        ensures { Stays (Takes result) self.old self.new }
    {
        pop(&mut self.lifecycle)
    }

    /// Takes the first packet that waits, if there is one, as bytes. A refusal, which is by memory,
    /// changes nothing.
    pub fn take_bytes(&mut self, alloc: Global) -> Result<Option<Vec<u8>>, AllocError>
        ensures none { IfOk result (λ o. IfNone o ((self.new ≡ self.old) × (out_of self.old.lifecycle ≡ []))) }
        ensures some { IfOk result (λ o. IfSome o (λ v. GivesBytes v.items self.old self.new)) }
        ensures err { OnErr result (self.new ≡ self.old) }
    {
        match self.front_bytes(alloc)? {
            Some(bytes) => {
                self.discard();
                Ok(Some(bytes))
            }
            None => Ok(None),
        }
    }

    /// Drops the first packet that waits.
    fn discard(&mut self)
        ensures { (x : NodePacket) (rest : List NodePacket) → out_of self.old.lifecycle ≡ x ∷ rest → Stays (Takes (Some x)) self.old self.new }
    {
        let _packet = self.take();
    }

    /// The bytes of the first packet that waits, if there is one. It still waits.
    pub fn front_bytes(&self, alloc: Global) -> Result<Option<Vec<u8>>, AllocError>
        ensures none { IfOk result (λ o. IfNone o (out_of self.now.lifecycle ≡ [])) }
        ensures some { IfOk result (λ o. IfSome o (λ v. IsFront self.now v.items)) }
    {
        if let Lifecycle::Up(node) = &self.lifecycle {
            return match node.front() {
                Some(packet) => written(alloc, packet),
                None => Ok(None),
            };
        }
        match self.front() {
            Some(packet) => written(alloc, packet),
            None => Ok(None),
        }
    }

    /// Goes on to the next stage if its stage is over, or says why it can't.
    pub(crate) fn pass(&mut self, alloc: Global) -> Result<(), Cause>
        ensures passes { Stays Passes self.old self.new }
        ensures on { OnOk result (is_held self.new.lifecycle ≡ false) }
        ensures held { IfErr result (λ why. IsHeld why self.new.lifecycle) }
    {
        if self.lifecycle.is_up() {
            return Ok(());
        }
        self.pass_on(alloc)
    }

    /// The same for a process that isn't up, which is rare.
    #[inline(never)]
    fn pass_on(&mut self, alloc: Global) -> Result<(), Cause>
        ensures passes { Stays Passes self.old self.new }
        ensures on { OnOk result (is_held self.new.lifecycle ≡ false) }
        ensures held { IfErr result (λ why. IsHeld why self.new.lifecycle) }
    {
        let lifecycle = replace(&mut self.lifecycle, Lifecycle::Passing);
        let (lifecycle, passed) = go_on(lifecycle, alloc);
        self.lifecycle = lifecycle;
        passed
    }
}

/// The process after it went on as far as it can, and why it couldn't go on if its stage is over.
fn go_on(lifecycle: Lifecycle, alloc: Global) -> (Lifecycle, Result<(), Cause>)
    ensures passes { Passes lifecycle result.0 }
    ensures on { OnOk result.1 (is_held result.0 ≡ false) }
    ensures held { IfErr result.1 (λ why. IsHeld why result.0) }
{
    match lifecycle.passed(alloc) {
        Ok(lifecycle) => (lifecycle, Ok(())),
        Err(held) => (held.lifecycle, Err(held.cause)),
    }
}

/// Takes a packet. A refusal changes nothing.
fn hand(lifecycle: &mut Lifecycle, alloc: Global, packet: &NodePacket) -> Result<(), AllocError>
    ensures ok { OnOk result (IsHanded packet.now lifecycle.old lifecycle.new) }
    ensures err { OnErr result (lifecycle.new ≡ lifecycle.old) }
{
    match lifecycle {
        Lifecycle::Up(process) => process.receive(alloc, packet),
        Lifecycle::Collecting(process) => process.receive(alloc, packet),
        Lifecycle::Replaying(process) => {
            process.receive(alloc, packet);
            Ok(())
        }
        Lifecycle::Replayed(process) => {
            process.receive(alloc, packet);
            Ok(())
        }
        Lifecycle::Restoring(process) => {
            process.receive(alloc, packet);
            Ok(())
        }
        Lifecycle::Passing => Ok(()),
    }
}

/// Sends again what isn't answered.
fn send_again(lifecycle: &mut Lifecycle)
    ensures { Ticks lifecycle.old lifecycle.new }
{
    match lifecycle {
        Lifecycle::Up(process) => process.tick(),
        Lifecycle::Collecting(process) => process.tick(),
        Lifecycle::Restoring(process) => process.tick(),
        Lifecycle::Replaying(_) => {}
        Lifecycle::Replayed(_) => {}
        Lifecycle::Passing => {}
    }
}

/// Takes the first packet that waits, if there is one.
fn pop(lifecycle: &mut Lifecycle) -> Option<NodePacket>
    ensures { Takes result lifecycle.old lifecycle.new }
{
    match lifecycle {
        Lifecycle::Up(process) => process.take(),
        Lifecycle::Collecting(process) => process.take(),
        Lifecycle::Replaying(process) => process.take(),
        Lifecycle::Replayed(process) => process.pop(),
        Lifecycle::Restoring(process) => process.take(),
        Lifecycle::Passing => None,
    }
}

/// The bytes of a packet.
fn written(alloc: Global, packet: &NodePacket) -> Result<Option<Vec<u8>>, AllocError>
    requires { Fits packet.now }
    ensures { IfOk result (λ o. MatchOption o ⊥ (λ v. IsPacket packet.now v.items)) }
{
    let bytes = encode(alloc, packet)?;
    Ok(Some(bytes))
}
