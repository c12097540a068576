//! Restoring the RSNs of a log.

ghost use Rattle.std.specs.Prelude.{◌≡◌, ◌<◌, ◌-◌, ℕ, true, slice_get, IfOk, OnOk, OnErr};
ghost use Rattle.rsn.specs.Receipts.{numbers_of};
ghost use Rattle.sender_log.specs.Log.{queue_of, with_queue};
ghost use Rattle.sender_log.specs.Queue.{is_logged, known, number_of, renumbered};

use limits::PARTIES;
use rsn::Receipts;
use sender_log::Log;
use std::alloc::AllocError;

/// Gives each message that the log of `me` keeps for a peer the RSN that the peer's receipts have
/// for it, or none. Answers how many got one. A refusal changes nothing.
pub fn resync(log: &mut Log, peer: u8, me: u8, receipts: &Receipts) -> Result<u32, AllocError>
    requires { me < PARTIES }
    ensures count { IfOk result (λ n. n ≡ known (queue_of peer log.new).numbers) }
    ensures numbers { OnOk result ((i : ℕ) → is_logged i (queue_of peer log.old) ≡ true → number_of i (queue_of peer log.new) ≡ slice_get (numbers_of me receipts.now) (i - 1)) }
    ensures ok { OnOk result (log.new ≡ with_queue peer (renumbered (numbers_of me receipts.now) (queue_of peer log.old)) log.old) }
    ensures err { OnErr result (log.new ≡ log.old) }
{
    log.renumber(peer, receipts.numbers(me))
}
