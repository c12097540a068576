//! A node is suspended.

ghost use Rattle.std.specs.Prelude.{◌≡◌, ◌≤◌, ◌++◌, ◌∷◌, [], length, map, IfOk, IfErr, OnOk};
ghost use Rattle.std.specs.List.{flat_map, list_all, AllByRecursion};
ghost use Rattle.packets.specs.Format.{long_bytes, IsLong};
ghost use Rattle.node.specs.declared.suspension.Unsuspended.TheVariants.{Memory};
ghost use Rattle.node.specs.Suspension.{flag_byte, codes_of, codes_bytes, rest_bytes, suspended_bytes, is_sent, is_covered, IsWhole, IsWritable, IsSuspended, IsUnsuspended};

use crate::node::Node;
use crate::queue::KeptQueue;
use limits::STATE_BYTES;
use packets::{put_checksum, put_many, put_u64};
use std::alloc::{AllocError, Global};

/// `SBN2`, the first four bytes of a suspended node.
pub const SUSPENSION_MAGIC: [u8; 4] = [0x53, 0x42, 0x4e, 0x32];

/// Why a node isn't suspended.
#[derive(Debug, Drop)]
pub enum Unsuspended {
    /// Memory ran out.
    Memory,
    /// The node waits until its checkpoint is durable.
    Frozen,
    /// A job is open.
    Busy,
    /// Its checkpoint doesn't cover all that it received and sent.
    Uncovered,
}

impl From<AllocError> for Unsuspended {
    ghost from_gives = { λ _ e. e ≡ Memory };

    fn from(_e: AllocError) -> Unsuspended {
        Unsuspended::Memory
    }
}

impl Node {
    /// The bytes of the whole node, without its limits and the packets that wait. There are none
    /// unless its checkpoint is durable and covers all that it received and sent: the host calls
    /// [`Node::checkpoint`], stores the bytes, and calls [`Node::saved`] before. The node stays as it
    /// is; its host must not go on with it once another one is resumed from the bytes.
    pub fn suspend(&self, alloc: Global) -> Result<Vec<u8>, Unsuspended>
        requires { length self.now.state ≤ STATE_BYTES }
        ensures bytes { IfOk result (λ v. IsSuspended self.now v.items) }
        ensures refused { IfErr result (λ e. IsUnsuspended e self.now) }
    {
        if self.frozen {
            return Err(Unsuspended::Frozen);
        }
        if self.working.is_some() {
            return Err(Unsuspended::Busy);
        }
        if !self.is_covered() {
            return Err(Unsuspended::Uncovered);
        }
        Ok(self.write(alloc)?)
    }

    /// Whether its checkpoint covers all that it received and sent.
    fn is_covered(&self) -> bool
        ensures { result ≡ is_covered self.now }
    {
        self.receipts.length() == 0
            && are_sent(&self.logs)
            && self.logs[self.me as usize].is_unused()
    }

    fn write(&self, alloc: Global) -> Result<Vec<u8>, AllocError>
        requires { length self.now.state ≤ STATE_BYTES }
        ensures value { IfOk result (λ v. v.items ≡ suspended_bytes self.now) }
        ensures fits { IfOk result (λ v. IsWritable self.now) }
    {
        // For the proof: there are as many flags as receipts.
        let _received = self.receipts.length();
        let kept = self.kept_bytes(alloc)?;
        let mut out = Vec::from_slice(alloc, &SUSPENSION_MAGIC)?;
        put_u64(&mut out, kept.len() as u64)?;
        out.extend_from_slice(&kept)?;
        self.put_rest(&mut out)?;
        put_checksum(&mut out)?;
        Ok(out)
    }

    /// Appends what its kept state doesn't have.
    fn put_rest(&self, out: &mut Vec<u8>) -> Result<(), AllocError>
        ensures value { OnOk result (out.new.items ≡ out.old.items ++ rest_bytes self.now) }
        ensures fits { OnOk result (AllByRecursion IsLong self.now.heard × AllByRecursion IsWhole self.now.logs) }
    {
        put_u64(out, self.life)?;
        out.extend_from_slice(&[self.exact as u8])?;
        put_numbers(out, &self.heard)?;
        put_flags(out, &self.resumed)?;
        put_logs(out, &self.logs)
    }
}

/// Whether all of each log is released.
fn are_sent(logs: &[KeptQueue]) -> bool
    ensures { result ≡ list_all is_sent logs.now }
{
    let mut sent = true;
    for log in logs {
        sent &= log.is_sent();
    }
    sent
}

/// Appends each number.
fn put_numbers(out: &mut Vec<u8>, numbers: &[u64]) -> Result<(), AllocError>
    ensures value { OnOk result (out.new.items ≡ out.old.items ++ flat_map long_bytes numbers.now) }
    ensures long { AllByRecursion IsLong numbers.now }
{
    put_many(out, numbers)
}

/// Appends each flag.
fn put_flags(out: &mut Vec<u8>, flags: &[bool]) -> Result<(), AllocError>
    ensures { OnOk result (out.new.items ≡ out.old.items ++ map flag_byte flags.now) }
{
    for flag in flags {
        out.extend_from_slice(&[*flag as u8])?;
    }
    Ok(())
}

/// Appends the codes of each log's RSNs.
fn put_logs(out: &mut Vec<u8>, logs: &[KeptQueue]) -> Result<(), AllocError>
    ensures value { OnOk result (out.new.items ≡ out.old.items ++ flat_map codes_bytes (map codes_of logs.now)) }
    ensures whole { OnOk result (AllByRecursion IsWhole logs.now) }
{
    for log in logs {
        log.put_codes(out)?;
    }
    Ok(())
}
