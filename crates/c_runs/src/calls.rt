//! Checks and calls of image files.

ghost use Rattle.std.specs.Prelude.{◌≡◌, ◌↔◌, IsTrue, IfOk, IfErr, MatchResult, OnErr, length};
ghost use Rattle.interp.specs.Image.{the_image};
ghost use Rattle.c_runs.specs.Calls.{IsTypableFile, IsCallableForm, IsSeat};
ghost use Rattle.c_runs.specs.Exports.{IsChecked, IsUnchecked, IsUncallable, IsCalled, IsCallRefusal, AreCalled, AreCallsRefused};

use crate::alone::call_alone;
use crate::handler::OpenHandler;
use crate::refusal::{ImageRefusal, refused_rule, refused_slot};
use crate::report::{FAULT_SIZE, REPORT_LIMIT, put_fault};
use helpers::{Effects, Who};
use interp::Handler as AnyHandler;
use limits::PROCESSES;
use std::alloc::Global;
use verifier::{FileForm, load_any};

/// The size of a message in bytes.
pub const MESSAGE: usize = 64;

/// Checks a file. If it is refused, writes the rule and the slot into `out`.
pub fn check(alloc: Global, file: &[u8], out: &mut [u8]) -> Result<(), ImageRefusal>
    ensures { MatchResult result (λ _. IsChecked file.now out.old out.new) (IsUnchecked file.now out.old out.new) }
{
    if out.len() < FAULT_SIZE {
        return Err(ImageRefusal::Room);
    }
    match load_any(alloc, file) {
        Ok(_image) => Ok(()),
        Err(error) => {
            put_fault(out, refused_rule(&error), refused_slot(&error));
            Err(ImageRefusal::Image(error))
        }
    }
}

/// Whether a process can be called so: its number is 1 to the count, which is at most 15, and the
/// sender is another process or the outside.
pub fn is_seat(who: Who) -> bool
    ensures { IsTrue result ↔ IsSeat who }
{
    1 <= who.me
        && who.me <= who.count
        && usize::from(who.count) <= PROCESSES
        && who.from <= who.count
        && who.me != who.from
}

/// The handler of a file that isn't of form 2, for a state of this length.
fn load_callable(alloc: Global, file: &[u8], state: &[u8]) -> Result<AnyHandler, ImageRefusal>
    ensures file { IfOk result (λ handler. IsTypableFile (the_image handler) file.now) }
    ensures form { IfOk result (λ handler. IsCallableForm (the_image handler)) }
    ensures state { IfOk result (λ handler. length state.now ≡ (the_image handler).len) }
    ensures refused { IfErr result (IsUncallable file.now state.now) }
{
    let handler = match AnyHandler::load(alloc, file) {
        Ok(handler) => handler,
        Err(error) => return Err(ImageRefusal::Image(error)),
    };
    if handler.form() == FileForm::Sbi2 {
        return Err(ImageRefusal::Form);
    }
    if state.len() != handler.state_len() as usize {
        return Err(ImageRefusal::State);
    }
    Ok(handler)
}

/// Loads a file and calls its handler with one message. Writes the report into `out`.
pub fn call(
    alloc: Global,
    file: &[u8],
    state: &mut [u8],
    message: &[u8],
    who: Who,
    out: &mut [u8],
) -> Result<(), ImageRefusal>
    ensures done { IfOk result (λ _. IsCalled file.now who state.old message.now state.new out.old out.new) }
    ensures refused { IfErr result (IsCallRefusal file.now who state.old message.now out.old) }
    ensures unchanged { OnErr result ((state.new ≡ state.old) × (out.new ≡ out.old)) }
{
    if !is_seat(who) {
        return Err(ImageRefusal::Who);
    }
    if message.len() != MESSAGE {
        return Err(ImageRefusal::Message);
    }
    if out.len() < REPORT_LIMIT {
        return Err(ImageRefusal::Room);
    }
    let handler = load_callable(alloc, file, state)?;
    let mut effects = Effects::new();
    call_alone(&handler, &mut effects, state, message, who, out, 0);
    Ok(())
}

/// Loads a file and calls its handler with each message of 64 bytes in turn. Writes the reports
/// into `out`, one after another.
pub fn call_many(
    alloc: Global,
    file: &[u8],
    state: &mut [u8],
    messages: &[u8],
    who: Who,
    out: &mut [u8],
) -> Result<(), ImageRefusal>
    ensures done { IfOk result (λ _. AreCalled file.now who state.old messages.now state.new out.old out.new) }
    ensures refused { IfErr result (AreCallsRefused file.now who state.old messages.now out.old) }
    ensures unchanged { OnErr result ((state.new ≡ state.old) × (out.new ≡ out.old)) }
{
    if !is_seat(who) {
        return Err(ImageRefusal::Who);
    }
    if messages.len() % MESSAGE != 0 {
        return Err(ImageRefusal::Message);
    }
    if out.len() / REPORT_LIMIT < messages.len() / MESSAGE {
        return Err(ImageRefusal::Room);
    }
    let mut handler = OpenHandler::new(load_callable(alloc, file, state)?);
    handler.call_each(state, messages, who, out);
    Ok(())
}
