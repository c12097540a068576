//! How workers ended.

ghost use Rattle.std.specs.Prelude.{◌≡◌, IfOk, map};
ghost use Rattle.live.specs.Inside.{ended_of};

use sessions::{End, Share};
use std::alloc::{AllocError, Global};
use std::sync::ledger::Ledger;

/// How a worker of a run ended.
#[derive(Clone, Copy, PartialEq, Eq, Debug)]
pub struct Ended {
    /// Its number, from 1.
    pub worker: u8,
    /// How many of its calls were accepted.
    pub answered: u32,
    pub end: End,
}

/// How the workers of these shares ended.
pub(crate) fn ends_of<L: Ledger>(
    alloc: Global,
    shares: &[Share<L>],
) -> Result<Vec<Ended>, AllocError>
    ensures { IfOk result (λ v. v.items ≡ map ended_of shares.now) }
{
    let mut ends = Vec::new(alloc);
    for share in shares {
        ends.push(Ended {
            worker: share.seat.worker(),
            answered: share.seat.answered(),
            end: share.end,
        })?;
    }
    Ok(ends)
}
