//! A saved process that is kept as bytes.

ghost use Rattle.std.specs.Prelude.{◌≡◌, ◌≤◌, length, IfOk};
ghost use Rattle.checkpoint.specs.declared.form.CheckpointForm.TheVariants.{Second};
ghost use Rattle.checkpoint.specs.Format.{IsCheckpoint};
ghost use Rattle.checkpoint.specs.Saved.{Fits, receipts_again, log_again};

use crate::fault::SavedError;
use crate::reader::decode;
use crate::saved::Saved;
use crate::writer::encode;
use limits::RECEIPTS;
use rsn::Receipts;
use sender_log::Log;
use std::alloc::{AllocError, Global};
use std::marker::Model;

/// Where the state begins in a checkpoint.
const STATE_START: usize = 12;

/// A saved process that is kept only as the bytes of its checkpoint, in the second form. They are
/// read when it is restored.
#[derive(Drop)]
pub struct Stored {
    bytes: Vec<u8>,
    state_len: usize,
    received: u32,
}

impl Model for Stored {
    ghost use Rattle.checkpoint.specs.Saved.{TheSaved};
    ghost use Rattle.checkpoint.specs.Inside.Stored.{saved_in, IsStored};

    ghost Value = { TheSaved };

    ghost view = { λ s. saved_in s.bytes.items };

    ghost invariant = { λ s. IsStored s.bytes.items s.state_len s.received };
}

impl Stored {
    /// The bytes of a saved process.
    pub fn of(alloc: Global, saved: &Saved) -> Result<Stored, AllocError>
        ensures { IfOk result (λ s. s ≡ saved.now) }
    {
        let bytes = encode(alloc, saved)?;
        let state_len = saved.state().len();
        let received = saved.length();
        Ok(Stored {
            bytes,
            state_len,
            received,
        })
    }

    /// The bytes of its checkpoint, in the second form.
    pub fn bytes(&self) -> &[u8]
        ensures { IsCheckpoint Second self.now result.now }
    {
        self.bytes.as_slice()
    }

    /// The state, 0 to 1,024 bytes.
    pub fn state(&self) -> &[u8]
        ensures { result.now ≡ self.now.state }
    {
        &self.bytes[STATE_START..STATE_START + self.state_len]
    }

    /// How many messages had been received, 0 to 65,536.
    pub fn length(&self) -> u32
        ensures value { result ≡ length self.now.senders }
        ensures bound { result ≤ RECEIPTS }
    {
        self.received
    }

    /// Receipts of the messages that had been received, all acknowledged, and a log of the messages
    /// that are kept, without RSNs.
    pub fn restore(&self, alloc: Global) -> Result<(Receipts, Log), AllocError>
        ensures receipts { IfOk result (λ r. r.0 ≡ receipts_again self.now) }
        ensures log { IfOk result (λ r. r.1 ≡ log_again self.now) }
        ensures fits { Fits Second self.now }
    {
        match decode(alloc, &self.bytes) {
            Ok(saved) => saved.restore(alloc),
            Err(SavedError::Memory) => Err(AllocError),
            Err(SavedError::Fault(_)) => unreachable!(),
        }
    }
}
