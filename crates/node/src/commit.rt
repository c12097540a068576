//! What a node does after its handler has run.

ghost use Rattle.std.specs.Prelude.{◌≡◌, ◌+◌, ◌<◌, ◌≤◌, ◌^◌, ℕ, List, length, Some, None, slice_get, OnOk, OnErr};
ghost use Rattle.node.specs.Queue.{TheQueue};
ghost use Rattle.node.specs.Node.{MaySend, given_to, log_at};
ghost use Rattle.node.specs.Calls.{did_work};
ghost use Rattle.node.specs.Stands.{Owes, Handles};
ghost use Rattle.node.specs.declared.node.TheConstants.{MOST_GIVEN};

use crate::job::Given;
use crate::node::Node;
use crate::queue::KeptQueue;
use packets::Body;
use std::alloc::AllocError;

impl Node {
    /// The handler ran on the message of the open job: `state` is the state that it left, `given`
    /// what it sent. Does nothing if no job is open. A refusal changes nothing.
    pub fn work(&mut self, state: Vec<u8>, given: &[Given]) -> Result<(), AllocError>
        requires { MaySend self.old given.now }
        ensures value { OnOk result (self.new ≡ did_work state.items given.now self.old.working self.old) }
        ensures acts { OnOk result (Owes (Handles state.items given.now self.old) self.old self.new) }
        ensures err { OnErr result (self.new ≡ self.old) }
    {
        let Some(job) = self.working else {
            return Ok(());
        };
        let behind = self.receipts.length() + 1;
        let number = self.base + behind as u64;
        log(&mut self.logs, given, number)?;
        let Ok(_) = self.receipts.accept(job.sender) else {
            unlog(&mut self.logs, given);
            return Err(AllocError);
        };
        self.state = state;
        self.waiting += 1;
        self.working = None;
        let incarnation = self.life;
        self.put(
            job.sender,
            Body::Number {
                incarnation,
                ssn: job.ssn,
                number,
            },
        );
        Ok(())
    }
}

/// Logs what a handler sent, under the RSN of its message. A refusal changes nothing.
pub fn log(logs: &mut Vec<KeptQueue>, given: &[Given], number: u64) -> Result<(), AllocError>
    requires to { (i : ℕ) (s : Given) → slice_get given.now i ≡ Some s → s.to < length logs.old.items }
    requires few { length given.now ≤ MOST_GIVEN }
    requires room { (d : ℕ) → (log_at logs.old.items d).dropped + length (log_at logs.old.items d).payloads + MOST_GIVEN < 2 ^ 63 }
    ensures ok { OnOk result (logs.new.items ≡ given_to number given.now logs.old.items) }
    ensures err { OnErr result (logs.new.items ≡ logs.old.items) }
{
    for (done, sent) in given.iter().enumerate() {
        if logs[sent.to as usize].append(sent.payload, number).is_err() {
            unlog(logs, &given[..done]);
            return Err(AllocError);
        }
    }
    Ok(())
}

/// Takes back what was logged.
fn unlog(logs: &mut Vec<KeptQueue>, given: &[Given])
    requires to { (i : ℕ) (s : Given) → slice_get given.now i ≡ Some s → s.to < length logs.old.items }
    ensures { (was : List TheQueue) (number : ℕ) → logs.old.items ≡ given_to number given.now was → logs.new.items ≡ was }
{
    for done in 0..given.len() {
        let last = given[given.len() - 1 - done];
        logs[last.to as usize].retract();
    }
}
