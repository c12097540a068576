//! Calls of opened images.

ghost use Rattle.std.specs.Prelude.{◌≡◌, Some, IfOk, IfErr, OnErr};
ghost use Rattle.c_runs.specs.Calls.{caller};
ghost use Rattle.c_runs.specs.Runs.{AreDone, AreUndone, Runs, AreDoneAsByFile, AreRefusedAsByFile};

use crate::calls::{MESSAGE, is_seat};
use crate::handler::OpenHandler;
use crate::refusal::ImageRefusal;
use crate::report::REPORT_LIMIT;
use c_handles::code;
use helpers::Who;
use verifier::FileForm;

/// Calls the handler with each message of 64 bytes in turn. Writes the reports into `out`, one
/// after another.
fn call_all(
    handler: &mut OpenHandler,
    state: &mut [u8],
    messages: &[u8],
    who: Who,
    out: &mut [u8],
) -> Result<(), ImageRefusal>
    ensures same { handler.new ≡ handler.old }
    ensures done { IfOk result (λ _. AreDone handler.old who state.old messages.now state.new out.old out.new) }
    ensures refused { IfErr result (AreUndone handler.old who state.old messages.now out.old) }
    ensures unchanged { OnErr result ((state.new ≡ state.old) × (out.new ≡ out.old)) }
{
    if !is_seat(who) {
        return Err(ImageRefusal::Who);
    }
    if messages.len() % MESSAGE != 0 {
        return Err(ImageRefusal::Message);
    }
    if out.len() / REPORT_LIMIT < messages.len() / MESSAGE {
        return Err(ImageRefusal::Room);
    }
    if handler.form() == FileForm::Sbi2 {
        return Err(ImageRefusal::Form);
    }
    if state.len() != handler.state_len() {
        return Err(ImageRefusal::State);
    }
    handler.call_each(state, messages, who, out);
    Ok(())
}

/// Calls the handler with messages of 64 bytes, and answers 0 or the number of the refusal.
pub fn run(
    handler: &mut OpenHandler,
    state: &mut [u8],
    messages: &[u8],
    me: u8,
    from: u8,
    count: u8,
    out: &mut [u8],
) -> u32
    ensures same { handler.new ≡ handler.old }
    ensures answer { Runs result (Some handler.old) (caller me from count) state.old messages.now state.new out.old out.new }
{
    code(call_all(handler, state, messages, Who { me, from, count }, out))
}

/// Calls by a handle answer what `sblog_call_many` answers for the file that was opened.
pub fn runs_are_calls()
    ensures done { AreDoneAsByFile }
    ensures refused { AreRefusedAsByFile }
{}
