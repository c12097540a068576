//! Payloads, one after the other.

ghost use Rattle.std.specs.Prelude.{◌≡◌, ◌++◌, ◌∷◌, ◌<◌, ◌≤◌, [], length, IfOk, OnOk, OnErr};
ghost use Rattle.std.specs.List.{flat_map, AllByRecursion};
ghost use Rattle.checkpoint.specs.declared.form.CheckpointForm.TheVariants.{Second};
ghost use Rattle.checkpoint.specs.Saved.{PayloadFits};
ghost use Rattle.checkpoint.specs.Format.{payload_bytes};

use crate::writer::put_payload;
use limits::PAYLOAD_BYTES;
use std::alloc::{AllocError, Global};
use std::marker::Model;

/// Payloads of at most 256 bytes, as the second form has them: each after its length.
#[derive(Drop)]
pub struct Payloads {
    count: u32,
    bytes: Vec<u8>,
}

impl Model for Payloads {
    ghost use Rattle.std.specs.Prelude.{ℕ, List};
    ghost use Rattle.checkpoint.specs.Inside.Payloads.{payloads_in, ArePayloads};

    ghost Value = { List (List ℕ) };

    ghost view = { λ p. payloads_in p.count p.bytes.items };

    ghost invariant = { λ p. ArePayloads p.count p.bytes.items };
}

impl Payloads {
    /// No payload.
    #[tactic(auto, using(crate::proofs::PayloadLemmas::none_are, crate::proofs::PayloadLemmas::none_read))]
    pub fn new(alloc: Global) -> Payloads
        ensures { result ≡ [] }
    {
        Payloads {
            count: 0,
            bytes: Vec::new(alloc),
        }
    }

    /// No payload, with room for this many bytes, the lengths included.
    #[tactic(auto, using(crate::proofs::PayloadLemmas::none_are, crate::proofs::PayloadLemmas::none_read))]
    pub fn with_room(alloc: Global, room: usize) -> Result<Payloads, AllocError>
        ensures { IfOk result (λ p. p ≡ []) }
    {
        let bytes = Vec::with_capacity(alloc, room)?;
        Ok(Payloads { count: 0, bytes })
    }

    /// Appends a payload. A refusal changes nothing.
    pub fn push(&mut self, payload: &[u8]) -> Result<(), AllocError>
        requires short { length payload.now ≤ PAYLOAD_BYTES }
        requires few { length self.old < 4294967295 }
        ensures ok { OnOk result (self.new ≡ self.old ++ payload.now ∷ []) }
        ensures err { OnErr result (self.new ≡ self.old) }
    {
        let len = self.bytes.len();
        if put_payload(&mut self.bytes, payload).is_err() {
            self.bytes.truncate(len);
            return Err(AllocError);
        }
        self.count += 1;
        Ok(())
    }

    /// How many there are.
    pub fn count(&self) -> u32
        ensures { result ≡ length self.now }
    {
        self.count
    }

    /// Their bytes, as the second form has them.
    pub fn bytes(&self) -> &[u8]
        ensures value { result.now ≡ flat_map (payload_bytes Second) self.now }
        ensures fit { AllByRecursion (PayloadFits Second) self.now }
    {
        self.bytes.as_slice()
    }
}
