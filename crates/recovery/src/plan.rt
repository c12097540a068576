//! The messages that a process keeps once all peers have told all.

ghost use Rattle.std.specs.Prelude.{◌≡◌, ℕ, ◌≤◌, ◌<◌, ◌+◌, suc, List, length, map, option_map, slice_index_or, MatchOption, None, IfOk, IfSome};
ghost use Rattle.node.specs.Node.{IsPeer};
ghost use Rattle.node.specs.Stands.{job_of};
ghost use Rattle.recovery.specs.Plan.{has_all, told_under, next_by, Plans, Fits, Overruns, Recovering};

use crate::collection::Collecting;
use node::{MOST_RECEIVED, OpenJob};
use std::alloc::{AllocError, Global};

impl Collecting {
    /// Whether all peers have told all.
    pub fn has_all(&self) -> bool
        ensures { result ≡ has_all self.now }
    {
        let me = self.own.me();
        let mut all = true;
        for peer in 0..self.own.count() + 1 {
            all = all && (peer == me || self.told[peer as usize].done);
        }
        all
    }

    /// The messages that the process keeps after those that its checkpoint covers: it takes those
    /// that were told with the next RSNs, up to the first RSN that no peer told or whose message
    /// isn't the next of its sender. There is no plan if they are more than a process receives
    /// between two checkpoints, or in all.
    pub fn plan(&self, alloc: Global) -> Result<Option<Vec<OpenJob>>, AllocError>
        ensures plan { IfOk result (λ o. IfSome o (λ jobs. Plans self.now jobs.items)) }
        ensures recovers { IfOk result (λ o. IfSome o (λ jobs. Recovering self.now jobs.items)) }
        ensures none { IfOk result (λ o. o ≡ None → Overruns self.now) }
    {
        self.follow(alloc)
    }

    pub(crate) fn follow(&self, alloc: Global) -> Result<Option<Vec<OpenJob>>, AllocError>
        ensures plans { IfOk result (λ o. IfSome o (λ jobs. Plans self.now jobs.items)) }
        ensures fits { IfOk result (λ o. IfSome o (λ jobs. Fits self.now jobs.items)) }
        ensures none { IfOk result (λ o. o ≡ None → Overruns self.now) }
    {
        let mut counts = Vec::from_slice(alloc, self.own.covered())?;
        let base = self.own.base();
        let most = (rsn::LIMIT as u64).min(MOST_RECEIVED - base);
        let mut plan = Vec::new(alloc);
        for behind in 0..most + 1 {
            match self.next(&counts, base + behind + 1) {
                None => return Ok(Some(plan)),
                Some(job) => {
                    counts[job.sender as usize] += 1;
                    plan.push(job)?;
                }
            }
        }
        Ok(None)
    }

    /// The message that was told with an RSN, if it is the next of its sender by these counts.
    fn next(&self, counts: &[u64], number: u64) -> Option<OpenJob>
        requires { self.now.own.count < length counts.now }
        ensures value { option_map job_of result ≡ next_by counts.now (told_under self.now.told self.now.own.count number) }
        ensures sender { IfSome result (λ j. IsPeer self.now.own.me self.now.own.count j.sender) }
    {
        let job = self.find(number)?;
        if job.ssn > 0 && job.ssn - 1 == counts[job.sender as usize] {
            Some(job)
        } else {
            None
        }
    }

    /// The message that was told with an RSN; if two peers told one, that of the lesser peer.
    fn find(&self, number: u64) -> Option<OpenJob>
        ensures value { option_map job_of result ≡ told_under self.now.told self.now.own.count number }
        ensures sender { IfSome result (λ j. IsPeer self.now.own.me self.now.own.count j.sender) }
    {
        for sender in 0..self.own.count() + 1 {
            if let Some(job) = self.told[sender as usize].message(sender, number) {
                return Some(job);
            }
        }
        None
    }
}
