//! Which columns a picture has: one for each refused order and each entry. If only messages are
//! shown, entries that move other packets have none.

ghost use Rattle.std.specs.Prelude.{◌≡◌, ◌<◌, ◌+◌, ◌^◌, ◌++◌, ◌∷◌, [], IfOk, None, OnOk, Some};
ghost use Rattle.diagram.specs.Columns.{behind, behind_entry, column, columns, keys_after, moves_other, outputs_in, text_of};
ghost use Rattle.diagram.specs.Models.{column_state_of, run_of};

use crate::column_state::ColumnState;
use crate::run::{Moment, Run};
use helpers::Payload;
use indexmap::IndexSet;
use std::alloc::{AllocError, Global};
use world::{Answer, Call, Entry};

/// The column of the entry at `place`, or of an order that was refused after `place` entries.
#[derive(Clone, Copy)]
pub struct Column {
    pub line: usize,
    pub place: usize,
    pub refused: Option<u8>,
    /// The payload of the message that the entry puts on the wire or shows.
    pub text: Option<Payload>,
}

impl ColumnState {
    /// Adds a refused order, which gets a column.
    fn refuse(&mut self, line: usize, number: u8) -> Result<(), AllocError>
        ensures { OnOk result (column_state_of self.new ≡ record (column_state_of self.old) { columns = self.old.columns.items ++ column (line, Some number) self.old.place None ∷ [] }) }
    {
        self.columns.push(Column {
            line,
            place: self.place,
            refused: Some(number),
            text: None,
        })?;
        Ok(())
    }

    /// Adds an entry of a line. It gets a column, unless only messages are shown and it moves
    /// another packet.
    fn enter(
        &mut self,
        run: &Run<'_>,
        line: usize,
        entry: &Entry,
        only_messages: bool,
    ) -> Result<(), AllocError>
        requires { self.old.place + 1 < 2 ^ 64 }
        ensures { OnOk result (column_state_of self.new ≡ behind_entry only_messages (run_of run.now) (line, None) (column_state_of self.old) entry.now) }
    {
        if !only_messages || !moves_other(&self.messages, &entry.call) {
            self.columns.push(Column {
                line,
                place: self.place,
                refused: None,
                text: text_of(run, self.place, self.outputs, entry.answer),
            })?;
        }
        self.place += 1;
        self.outputs += outputs_in(entry.answer);
        note(&mut self.messages, entry)
    }

    /// Adds a moment of a run.
    fn pass(&mut self, run: &Run<'_>, moment: Moment, only_messages: bool) -> Result<(), AllocError>
        ensures { OnOk result (column_state_of self.new ≡ behind only_messages (run_of run.now) (column_state_of self.old) moment) }
    {
        let (line, refused) = moment;
        if let Some(number) = refused {
            return self.refuse(line, number);
        }
        match run.entries.get(self.place) {
            Some(entry) => self.enter(run, line, entry, only_messages),
            None => Ok(()),
        }
    }
}

/// How many outputs an entry shows.
fn outputs_in(answer: Answer) -> usize
    ensures { result ≡ outputs_in answer }
{
    match answer {
        Answer::Shown(_) => 1,
        _ => 0,
    }
}

/// The payload of an entry's message, after `place` entries and `outputs` outputs: of the output
/// that it shows, or the message that it puts on the wire.
fn text_of(run: &Run<'_>, place: usize, outputs: usize, answer: Answer) -> Option<Payload>
    ensures { result ≡ text_of (run_of run.now) place outputs answer }
{
    match answer {
        Answer::Shown(_) => run.shown.get(outputs).map(|message| message.payload),
        _ => run.sent.get(place).copied().flatten(),
    }
}

/// Updates the keys of the messages on the wire.
fn note(messages: &mut IndexSet<usize>, entry: &Entry) -> Result<(), AllocError>
    ensures { OnOk result (messages.new.keys ≡ keys_after messages.old.keys entry.now) }
{
    match (entry.call, entry.answer) {
        (Call::Transmit { .. }, Answer::Placed(key)) => {
            messages.insert(key)?;
        }
        (Call::Copy { key: old }, Answer::Placed(key)) => {
            if messages.contains(&old) {
                messages.insert(key)?;
            }
        }
        (Call::Lose { key } | Call::Arrive { key }, _) => {
            messages.shift_remove(&key);
        }
        _ => (),
    }
    Ok(())
}

/// Whether a call moves a packet that isn't one of these messages.
fn moves_other(messages: &IndexSet<usize>, call: &Call) -> bool
    ensures { result ≡ moves_other messages.now.keys call.now }
{
    match *call {
        Call::Copy { key } | Call::Lose { key } | Call::Arrive { key } => !messages.contains(&key),
        _ => false,
    }
}

/// The columns of a run.
pub(crate) fn columns(
    alloc: Global,
    run: &Run<'_>,
    only_messages: bool,
) -> Result<Vec<Column>, AllocError>
    ensures { IfOk result (λ v. v.items ≡ columns only_messages (run_of run.now)) }
{
    let mut state = ColumnState {
        place: 0,
        outputs: 0,
        messages: IndexSet::new(alloc),
        columns: Vec::new(alloc),
    };
    for moment in run.moments {
        state.pass(run, *moment, only_messages)?;
    }
    Ok(state.columns)
}
