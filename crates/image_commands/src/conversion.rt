//! The command `migrate`.

ghost use Rattle.std.specs.Prelude.{◌≡◌, ◌≢◌, ◌<◌, ◌≤◌, ◌⊎◌, true, IfErr, IfOk, OnErr, OnOk, length, replicate};
ghost use Rattle.interp.specs.Answer.{Handled, HasRun};
ghost use Rattle.interp.specs.Image.{the_image};
ghost use Rattle.verifier.specs.declared.fault.HeaderFault.TheVariants.{StateLength};
ghost use Rattle.image_commands.specs.Fault.{FaultOf};
ghost use Rattle.image_commands.specs.Files.{IsWritten, MakesFile};
ghost use Rattle.image_commands.specs.Migrate.{Converts, IsUnconverted, MakesState, converter, piece_bytes};
ghost use Rattle.image_commands.specs.OwnInput.{IsOwnInput};
ghost use Rattle.image_commands.specs.declared.fault.Fault.TheVariants.{Header, Memory};

use crate::fault::Fault;
use crate::files::Files;
use crate::loader::load_handler;
use crate::own_input::spare;
use crate::site::Site;
use helpers::{Effects, Payload, Who};
use interp::Handler;
use limits::{FORM_1_BYTES, PAYLOAD_BYTES, STATE_BYTES};
use std::alloc::Global;
use verifier::{FileForm, HeaderFault};

/// How many bytes of a state are read: as many as one has at most, and one more.
pub const STATE_LIMIT: usize = STATE_BYTES + 1;

/// Who is called: process 1 of one, by the outside.
const CONVERTER: Who = Who {
    me: 1,
    from: 0,
    count: 1,
};

/// How many bytes of a state one call shows: as many as a handler of this form sees of a message.
fn piece_bytes(form: FileForm) -> usize
    ensures size { result ≡ piece_bytes form }
    ensures some { 1 ≤ result }
    ensures most { result ≤ PAYLOAD_BYTES }
{
    match form {
        FileForm::Sbi1 => FORM_1_BYTES,
        FileForm::Sbi2 | FileForm::Sbi3 => PAYLOAD_BYTES,
    }
}

/// Calls a handler on one piece of a state. What it sends and puts out is dropped.
fn show(handler: &Handler, piece: &[u8], state: &mut [u8])
    requires state { length state.old ≡ (the_image handler.now).len }
    requires piece { length piece.now ≤ PAYLOAD_BYTES }
    ensures { (h : Handled) × HasRun (the_image handler.now) converter state.old piece.now h × (h.state ≡ state.new) }
{
    let mut effects = Effects::new();
    let _end = handler.call(state, &Payload::from_slice(piece), CONVERTER, &mut effects);
}

/// Calls a handler on the pieces of a state, in their order.
fn show_all(handler: &Handler, old: &[u8], state: &mut [u8])
    requires { length state.old ≡ (the_image handler.now).len }
    ensures { Converts (the_image handler.now) old.now state.old state.new }
{
    let size = piece_bytes(handler.form());
    if old.len() <= size {
        show(handler, old, state);
        return;
    }
    let (piece, rest) = old.split_at(size);
    show(handler, piece, state);
    show_all(handler, rest, state);
}

/// The state that a handler makes of an old one. Its own state begins as zeros.
fn convert(alloc: Global, handler: &Handler, old: &[u8]) -> Result<Vec<u8>, Fault>
    ensures short { OnOk result (length old.now ≤ STATE_BYTES) }
    ensures converted { IfOk result (λ v. Converts (the_image handler.now) old.now (replicate (the_image handler.now).len 0) v.items) }
    ensures refused { IfErr result (λ f. (f ≡ Memory) ⊎ ((f ≡ Header StateLength) × (STATE_BYTES < length old.now))) }
{
    if old.len() > STATE_BYTES {
        return Err(Fault::Header(HeaderFault::StateLength));
    }
    let mut state = Vec::from_elem(alloc, 0, handler.state_len() as usize)?;
    show_all(handler, old, state.as_mut_slice());
    Ok(state)
}

/// Has the handler of an image file, of any form, make a state of that in another file, and writes it into a third one.
pub fn write_converted<F: Files>(
    alloc: Global,
    image: &str,
    state: &str,
    converted: &str,
    files: &mut F,
    site: &mut Site,
) -> Result<(), Fault>
    ensures made { OnOk result (MakesFile (F.content files.old) image.now (MakesState (F.content files.old) state.now)) }
    ensures left { OnOk result (IsWritten image.now converted.now (MakesState (F.content files.old) state.now)
        (F.content files.old) (F.content files.new) × (state.now ≢ converted.now)) }
    ensures fault { IfErr result (λ f. FaultOf (F.content files.old) (F.failed files.new) image.now (IsUnconverted (F.content files.old) state.now) f
        ⊎ IsOwnInput ((F.may_be_one image.now converted.now ≡ true) ⊎ (F.may_be_one state.now converted.now ≡ true)) f) }
    ensures kept { OnErr result (F.content files.new ≡ F.content files.old) }
{
    spare(alloc, image, converted, files)?;
    spare(alloc, state, converted, files)?;
    let handler = load_handler(alloc, image, files, site)?;
    let old = site.read(alloc, state, Some(STATE_LIMIT), files)?;
    let new = convert(alloc, &handler, old.as_slice())?;
    site.write(converted, new.as_slice(), files)?;
    Ok(())
}
