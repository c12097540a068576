//! Runs of a scenario, and which line made each call.

ghost use Rattle.std.specs.Prelude.{◌≡◌, ◌++◌, IfOk, List, None, OnOk, drop, map, replicate};
ghost use Rattle.interp.specs.Image.{TheImage, image_in};
ghost use Rattle.machine.specs.Openings.{AreFew};
ghost use Rattle.sessions.specs.Journal.{IsLegal};
ghost use Rattle.runner.specs.Orders.{CarriesOut, beginning, world_at};
ghost use Rattle.runner.specs.Inside.{AreNoted, IsNoted, notes_of, position_of};
ghost use Rattle.runner.specs.Run.{IsChronicle, refused_moment, sent_by, sent_in};

use crate::player::Player;
use helpers::Payload;
use interp::Handler;
use scenario::{Scenario, Step};
use sessions::{Slip, copied};
use std::alloc::{AllocError, Global};
use std::sync::Arc;
use world::{Call, Entry, Message, Refusal};

/// An accepted call or a refused order: its line, from 1, and the number that refused it.
pub type Moment = (usize, Option<u8>);

/// What a run did, in the order of time.
#[derive(Drop)]
pub struct Chronicle {
    /// The accepted calls, with their answers.
    pub entries: Vec<Entry>,
    /// One for each accepted call, and one for each refused order.
    pub moments: Vec<Moment>,
    /// The message that each accepted call put on the wire, by the log of its sender.
    pub sent: Vec<Option<Payload>>,
    /// The outputs.
    pub shown: Vec<Message>,
}

/// The moments of the orders so far, and what their calls put on the wire.
#[derive(Drop)]
pub(crate) struct Notes {
    pub(crate) moments: Vec<Moment>,
    pub(crate) sent: Vec<Option<Payload>>,
}

/// Notes `count` accepted calls of a line.
fn note_calls(moments: &mut Vec<Moment>, line: usize, count: usize) -> Result<(), AllocError>
    ensures { OnOk result (moments.new.items ≡ moments.old.items ++ replicate count (line, None)) }
{
    for noted in 0..count {
        moments.push((line, None))?;
    }
    Ok(())
}

/// Notes that the order of a line was refused, if it was.
fn note_refusal(
    moments: &mut Vec<Moment>,
    line: usize,
    refused: Option<u8>,
) -> Result<(), AllocError>
    ensures { OnOk result (moments.new.items ≡ moments.old.items ++ refused_moment line refused) }
{
    if refused.is_some() {
        moments.push((line, refused))?;
    }
    Ok(())
}

impl Player {
    /// Carries out the order of a step, and answers the number that refused it, if one did.
    fn heed(&mut self, step: &Step) -> Result<Option<u8>, AllocError>
        ensures { IfOk result (λ refused. CarriesOut (position_of self.old) step.now.order (position_of self.new) refused) }
    {
        let Err(refusal) = self.carry_out(&step.order) else {
            return Ok(None);
        };
        match refusal {
            Refusal::Memory => Err(AllocError),
            other => Ok(Some(other.number())),
        }
    }

    /// The message that a call put on the wire, by the log of its sender.
    fn sent_by(&self, call: &Call) -> Option<Payload>
        ensures { result ≡ sent_by (world_at (position_of self.now)) call.now }
    {
        match *call {
            Call::Transmit { from, to, ssn } => self.session.logged(from, to, ssn),
            _ => None,
        }
    }

    /// The accepted calls after the first `before`.
    fn added(&self, before: usize) -> &[Slip]
        ensures { result.now ≡ drop before (position_of self.now).entries }
    {
        let journal = self.session.journal();
        &journal[before.min(journal.len())..]
    }

    /// Notes what these accepted calls put on the wire.
    fn note_sent(&self, sent: &mut Vec<Option<Payload>>, slips: &[Slip]) -> Result<(), AllocError>
        ensures { OnOk result (sent.new.items ≡ sent.old.items ++ sent_in (world_at (position_of self.now)) slips.now) }
    {
        for slip in slips {
            let entry = slip.entry();
            sent.push(self.sent_by(&entry.call))?;
        }
        Ok(())
    }

    /// Carries out the order of a step, and notes what it did.
    fn tell(&mut self, step: &Step, notes: &mut Notes) -> Result<(), AllocError>
        ensures { OnOk result (IsNoted step.now (position_of self.old) (position_of self.new) (notes_of notes.old) (notes_of notes.new)) }
    {
        let before = self.session.journal().len();
        let refused = self.heed(step)?;
        let after = self.session.journal().len();
        note_calls(&mut notes.moments, step.line, after.saturating_sub(before))?;
        note_refusal(&mut notes.moments, step.line, refused)?;
        self.note_sent(&mut notes.sent, self.added(before))
    }

    /// Carries out the orders of all steps, and notes what they did.
    pub(crate) fn tell_all(&mut self, alloc: Global, steps: &[Step]) -> Result<Notes, AllocError>
        ensures { IfOk result (λ notes. AreNoted steps.now (position_of self.old) (position_of self.new) (notes_of notes)) }
    {
        let mut notes = Notes {
            moments: Vec::new(alloc),
            sent: Vec::new(alloc),
        };
        for step in steps {
            self.tell(step, &mut notes)?;
        }
        Ok(notes)
    }
}

fn copied_messages(alloc: Global, messages: &[Message]) -> Result<Vec<Message>, AllocError>
    ensures { IfOk result (λ v. v.items ≡ messages.now) }
{
    messages.iter().copied().collect(alloc)
}

impl Player {
    /// Copies of the accepted calls and of the outputs.
    fn copies(&self, alloc: Global) -> Result<(Vec<Entry>, Vec<Message>), AllocError>
        ensures entries { IfOk result (λ c. c.0.items ≡ (position_of self.now).entries) }
        ensures shown { IfOk result (λ c. c.1.items ≡ (world_at (position_of self.now)).shown) }
        ensures legal { IsLegal self.now.session }
    {
        let entries = copied(alloc, self.session.journal())?;
        let shown = copied_messages(alloc, self.session.shown_since(0))?;
        Ok((entries, shown))
    }

    /// Carries out the orders of all steps, and tells what they did.
    fn chronicle(&mut self, alloc: Global, steps: &[Step]) -> Result<Chronicle, AllocError>
        ensures { IfOk result (λ c. (images : List TheImage) → position_of self.old ≡ beginning images → IsChronicle images steps.now c.entries.items c.moments.items c.sent.items c.shown.items) }
    {
        let notes = self.tell_all(alloc, steps)?;
        let copies = self.copies(alloc)?;
        Ok(Chronicle {
            entries: copies.0,
            moments: notes.moments,
            sent: notes.sent,
            shown: copies.1,
        })
    }
}

/// What a scenario does if its orders are carried out as by [`run`](crate::run), in a session of these images, 1 to 15. Only
/// memory can run out.
pub fn chronicle_of(
    alloc: Global,
    scenario: &Scenario,
    images: Vec<Arc<Handler>>,
) -> Result<Chronicle, AllocError>
    requires { AreFew (map image_in images.items) }
    ensures { IfOk result (λ c. IsChronicle (map image_in images.items) scenario.now.steps.items c.entries.items c.moments.items c.sent.items c.shown.items) }
{
    let mut player = Player::open(alloc, images)?;
    player.chronicle(alloc, scenario.steps.as_slice())
}
