//! Carrying out orders.

ghost use Rattle.std.specs.Prelude.{◌≡◌, ◌⊎◌, ◌≤◌, ◌+◌, ◌^◌};
ghost use Rattle.machine.specs.Dispatch.{TakesNoResult};
ghost use Rattle.runner.specs.Orders.{CarriesOut, BringsBack, FindsNoMemory, HandsIn, IsDriven, MakesCall, held_for, without_job};
ghost use Rattle.runner.specs.Inside.{ComesTo, NoNumber, OnMemory, position_of};

use crate::player::Player;
use helpers::Payload;
use results::payload_of;
use scenario::Order;
use sessions::Service;
use world::{Call, Refusal};

impl Player {
    /// Carries out an order. A refused order changes nothing, except that it uses up its feed number or
    /// drops a held job. It answers that memory ran out only if no number refuses it; then the run ends.
    pub(crate) fn carry_out(&mut self, order: &Order) -> Result<(), Refusal>
        ensures done { ComesTo (CarriesOut (position_of self.old) order.now (position_of self.new)) result }
        ensures memory { OnMemory (FindsNoMemory (position_of self.old) order.now) result }
    {
        match *order {
            Order::Input { to, word } => self.hand_in(to, payload_of(word)),
            Order::Bytes { to, payload } => self.hand_in(to, payload),
            Order::Transmit { from, to, ssn } => self.make(&Call::Transmit { from, to, ssn }),
            Order::Copy { key } => self.make(&Call::Copy { key: key as usize }),
            Order::Lose { key } => self.make(&Call::Lose { key: key as usize }),
            Order::Arrive { key } => self.make(&Call::Arrive { key: key as usize }),
            Order::Finish { process } => self.finish(process),
            Order::Checkpoint { process } => self.make(&Call::Checkpoint { process }),
            Order::Trim { to } => self.make(&Call::Trim { to }),
            Order::Crash { process } => self.make(&Call::Crash { process }),
            Order::Recover { process } => self.make(&Call::Recover { process }),
            Order::RecoverAlone { process } => self.make(&Call::RecoverAlone { process }),
            Order::ReplayBegin { process } => self.make(&Call::ReplayBegin { process }),
            Order::Resync { process, peer } => self.make(&Call::Resync { process, peer }),
            Order::Drive { budget } => self.drive(budget),
        }
    }

    /// Hands in a message under the next feed number. After 2^32 - 1 of them it answers that memory ran out.
    fn hand_in(&mut self, to: u8, payload: Payload) -> Result<(), Refusal>
        ensures done { ComesTo (HandsIn (position_of self.old) to payload (position_of self.new)) result }
        ensures memory { OnMemory (NoNumber (HandsIn (position_of self.old) to payload) ⊎ (2 ^ 32 ≤ self.old.inputs + 1)) result }
    {
        let Some(feed) = self.inputs.checked_add(1) else {
            return Err(Refusal::Memory);
        };
        self.inputs = feed;
        self.make(&Call::Input { to, feed, payload })
    }

    /// Makes a call, and holds the job that it starts.
    fn make(&mut self, call: &Call) -> Result<(), Refusal>
        requires { TakesNoResult call.now }
        ensures done { ComesTo (MakesCall (position_of self.old) call.now (position_of self.new)) result }
        ensures memory { OnMemory (NoNumber (MakesCall (position_of self.old) call.now)) result }
    {
        let reply = self.session.call(call)?;
        if let Some(job) = reply.job {
            self.hold(job);
        }
        Ok(())
    }

    /// Runs the held job of a process, and brings its result back.
    fn finish(&mut self, process: u8) -> Result<(), Refusal>
        ensures done { ComesTo (BringsBack (without_job (position_of self.old) process) (held_for (position_of self.old) process) (position_of self.new)) result }
        ensures memory { OnMemory (NoNumber (BringsBack (without_job (position_of self.old) process) (held_for (position_of self.old) process))) result }
    {
        let Some(job) = self.take(process) else {
            return Err(Refusal::StaleJob);
        };
        match self.session.finish(Service::run(job)) {
            Ok(_) => Ok(()),
            Err((refusal, _)) => Err(refusal),
        }
    }

    /// Makes useful calls, at most as many as the budget.
    fn drive(&mut self, budget: u32) -> Result<(), Refusal>
        ensures { ComesTo (λ refused. IsDriven budget (position_of self.old) (position_of self.new) × (refused ≡ None)) result }
    {
        match self.session.drive(budget) {
            Ok(_) => Ok(()),
            Err(refusal) => Err(refusal),
        }
    }
}
