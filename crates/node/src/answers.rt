//! A node that is up answers a recovering peer.

ghost use Rattle.std.specs.Prelude.{◌≡◌, ◌≤◌, ◌<◌, ◌^◌, OnOk, OnErr};
ghost use Rattle.node.specs.Node.{IsPeer, IsPositive};
ghost use Rattle.node.specs.Answers.{hears, asked_by, obeys, works_for, resumed_by};

use crate::node::Node;
use std::alloc::{AllocError, Global};

impl Node {
    /// Takes an Ask: `from`, which is recovering in its incarnation `life`, asks what the log holds
    /// for it above this RSN. A refusal changes nothing.
    pub(crate) fn receive_ask(
        &mut self,
        alloc: Global,
        from: u8,
        life: u64,
        above: u64,
    ) -> Result<(), AllocError>
        requires peer { IsPeer self.old.me self.old.count from }
        requires life { IsPositive life }
        requires above { above < 2 ^ 63 }
        ensures ok { OnOk result (self.new ≡ asked_by from life above self.old) }
        ensures err { OnErr result (self.new ≡ self.old) }
    {
        if life < self.heard[from as usize] {
            return Ok(());
        }
        let body = self.told(alloc, from, life, above)?;
        self.hear(from, life);
        self.put(from, body);
        Ok(())
    }

    /// Hears a newer incarnation of a peer.
    fn hear(&mut self, from: u8, life: u64)
        requires { from ≤ self.old.count }
        ensures { self.new ≡ hears from life self.old }
    {
        if self.heard[from as usize] < life {
            self.heard[from as usize] = life;
            self.resumed[from as usize] = false;
        }
    }

    /// Takes a Resume: `from`, which is recovering in its incarnation `life`, keeps this many
    /// messages, and asks which of its own after this SSN the node has. A refusal changes nothing.
    pub(crate) fn receive_resume(
        &mut self,
        alloc: Global,
        from: u8,
        life: u64,
        kept: u64,
        above: u64,
    ) -> Result<(), AllocError>
        requires peer { IsPeer self.old.me self.old.count from }
        requires life { IsPositive life }
        requires above { above < 2 ^ 63 }
        ensures ok { OnOk result (self.new ≡ resumed_by from life kept above self.old) }
        ensures err { OnErr result (self.new ≡ self.old) }
    {
        if life != self.heard[from as usize] || self.works_for(from) {
            return Ok(());
        }
        let body = self.restored(alloc, from, life, above)?;
        self.obey(from, kept);
        self.put(from, body);
        Ok(())
    }

    /// Whether the open job is on a message of `from`.
    fn works_for(&self, from: u8) -> bool
        ensures { result ≡ works_for from self.now.working }
    {
        match &self.working {
            Some(job) => job.sender == from,
            None => false,
        }
    }

    /// Forgets the RSNs of `from` above what it keeps, once in each of its incarnations.
    fn obey(&mut self, from: u8, kept: u64)
        requires { from ≤ self.old.count }
        ensures { self.new ≡ obeys from kept self.old }
    {
        if !self.resumed[from as usize] {
            self.logs[from as usize].forget_above(kept);
            self.resumed[from as usize] = true;
        }
    }
}
