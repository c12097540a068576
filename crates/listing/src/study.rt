//! Code with what is known at each slot.

ghost use Rattle.std.specs.Prelude.{◌≡◌, ◌<◌, ◌≤◌, IfOk, None, length, slice_get, unwrap_or};
ghost use Rattle.std.specs.Global.{Box};
ghost use Rattle.std.specs.List.{AllByRecursion};
ghost use Rattle.std.specs.Option.{option_map};
ghost use Rattle.decode.specs.Encoding.{Fits};
ghost use Rattle.decode.specs.Slots.{slots_of};
ghost use Rattle.regtypes.specs.Typing.{frame_at};
ghost use Rattle.spans.specs.declared.cells.Cells.{Cells};
ghost use Rattle.verifier.specs.FileForm.{file_form_of};
ghost use Rattle.verifier.specs.declared.file_form.FileForm.TheVariants.{Sbi3};
ghost use Rattle.listing.specs.declared.view.View.TheVariants.{Spans};
ghost use Rattle.listing.specs.Study.{IsStudy};

use crate::view::View;
use decode::Insn;
use limits::SLOTS;
use regtypes::{Frame, ImageForm, Rule};
use spans::Cells;
use std::alloc::{AllocError, Global};
use verifier::{FileForm, Frames, SpanFrames, frames_of, span_frames_of};

/// For each slot what is known there, if a path reaches it. If the code is refused, that is final up to the slot that is
/// named.
#[derive(Drop)]
pub enum Table {
    Flat(Vec<Option<Frame>>),
    Spans(Vec<Option<Box<Cells>>>),
}

/// The slots of code, with the verifier's results for it.
#[derive(Drop)]
pub struct Study {
    /// The form; form 2 for code of form 3, which has the same helpers.
    pub form: ImageForm,
    /// How many bytes the state has.
    pub state_len: u16,
    /// How many instructions there are. One of two slots counts once.
    pub count: usize,
    /// For each slot the instruction that begins there.
    pub slots: Vec<Option<Insn>>,
    pub table: Table,
    /// The broken rule and its slot, if the verifier refuses the code.
    pub refusal: Option<(Rule, usize)>,
}

impl Study {
    ghost use Rattle.std.specs.Prelude.{◌≡◌};
    ghost use Rattle.decode.specs.Slots.{insn_at};
    ghost use Rattle.verifier.specs.FileForm.{file_form_number};
    ghost use Rattle.listing.specs.Study.{flat_at, form_of, view_at};

    /// The number of the form, 1 to 3.
    pub fn form_number(&self) -> u8
        ensures { result ≡ file_form_number (form_of self.now.form self.now.table) }
    {
        match &self.table {
            Table::Flat(_) => self.form.number(),
            Table::Spans(_) => 3,
        }
    }

    /// The instruction that begins at a slot.
    pub fn insn_at(&self, slot: usize) -> Option<Insn>
        ensures { result ≡ insn_at self.now.slots.items slot }
    {
        match self.slots.get(slot) {
            Some(insn) => *insn,
            None => None,
        }
    }

    /// What is known at a slot in forms 1 and 2.
    pub fn frame_at(&self, slot: usize) -> Option<Frame>
        ensures { result ≡ flat_at self.now.table slot }
    {
        match &self.table {
            Table::Flat(table) => frame_in(table, slot),
            Table::Spans(_) => None,
        }
    }

    /// What is known at a slot, if a path reaches it.
    pub fn view_at(&self, slot: usize) -> Option<View>
        ensures { result ≡ view_at self.now.table slot }
    {
        match &self.table {
            Table::Flat(table) => match frame_in(table, slot) {
                Some(frame) => Some(View::Flat(frame)),
                None => None,
            },
            Table::Spans(table) => cells_in(table, slot),
        }
    }
}

fn frame_in(table: &Vec<Option<Frame>>, slot: usize) -> Option<Frame>
    ensures { result ≡ frame_at table.now.items slot }
{
    match table.get(slot) {
        Some(frame) => *frame,
        None => None,
    }
}

fn cells_in(table: &Vec<Option<Box<Cells>>>, slot: usize) -> Option<View>
    ensures { result ≡ option_map (λ (b : Box Cells). Spans b.value) (unwrap_or (slice_get table.now.items slot) None) }
{
    match table.get(slot) {
        None => None,
        Some(None) => None,
        Some(Some(cells)) => Some(View::Spans(**cells)),
    }
}

fn flat_study(
    alloc: Global,
    code: &[Insn],
    state_len: u16,
    form: ImageForm,
) -> Result<Study, AllocError>
    requires some { 0 < length code.now }
    requires slots { length (slots_of code.now) ≤ SLOTS }
    ensures { IfOk result (IsStudy (file_form_of form) code.now state_len) }
{
    let Frames {
        slots,
        table,
        refusal,
    } = frames_of(alloc, code, state_len, form)?;
    Ok(Study {
        form,
        state_len,
        count: code.len(),
        slots,
        table: Table::Flat(table),
        refusal,
    })
}

fn span_study(alloc: Global, code: &[Insn], state_len: u16) -> Result<Study, AllocError>
    requires some { 0 < length code.now }
    requires slots { length (slots_of code.now) ≤ SLOTS }
    requires fits { AllByRecursion Fits code.now }
    ensures { IfOk result (IsStudy Sbi3 code.now state_len) }
{
    let SpanFrames {
        slots,
        table,
        refusal,
    } = span_frames_of(alloc, code, state_len)?;
    Ok(Study {
        form: ImageForm::Sbi2,
        state_len,
        count: code.len(),
        slots,
        table: Table::Spans(table),
        refusal,
    })
}

/// The study of code of this form, 1 to 1,024 slots, with a state of `state_len` bytes.
pub fn study_of(
    alloc: Global,
    code: &[Insn],
    state_len: u16,
    form: FileForm,
) -> Result<Study, AllocError>
    requires some { 0 < length code.now }
    requires slots { length (slots_of code.now) ≤ SLOTS }
    requires fits { AllByRecursion Fits code.now }
    ensures { IfOk result (IsStudy form code.now state_len) }
{
    match form {
        FileForm::Sbi1 => flat_study(alloc, code, state_len, ImageForm::Sbi1),
        FileForm::Sbi2 => flat_study(alloc, code, state_len, ImageForm::Sbi2),
        FileForm::Sbi3 => span_study(alloc, code, state_len),
    }
}
