//! A handler that is kept from call to call.

ghost use Rattle.std.specs.Prelude.{◌≡◌};
ghost use Rattle.interp.specs.Flat.{IsSpent};
ghost use Rattle.c_runs.specs.Arrays.{IsReady};

use crate::array::call_each;
use crate::calls::MESSAGE;
use crate::refusal::ImageRefusal;
use crate::report::REPORT_LIMIT;
use crate::span_array::call_spans;
use helpers::{Effects, Who};
use interp::Handler as AnyHandler;
use native::compile_handler;
use std::alloc::Global;
use std::marker::Model;
use verifier::{FileForm, Image, ImageError};

/// A handler of any form, the array for calls of form 1, and memory for what a call emits. Both are
/// kept, so a call clears only what the one before left.
#[derive(Drop)]
pub struct OpenHandler {
    pub(crate) handler: AnyHandler,
    pub(crate) mem: [u8; 1792],
    pub(crate) effects: Effects,
}

impl Model for OpenHandler {
    ghost use Rattle.interp.specs.Image.{TheImage, the_image};
    ghost use Rattle.c_runs.specs.Arrays.{IsReady};

    ghost Value = { TheImage };

    ghost view = { λ h. the_image h.handler };

    ghost invariant = { λ h. IsReady h.handler h.mem };
}

/// The array before any call of an image.
fn clear_array(image: &Image) -> [u8; 1792]
    ensures { IsSpent MESSAGE image.now.len image.now.low result }
{
    // For the proof: state and stack lie in the array.
    let _low = image.low();
    let _len = image.state_len();
    [0; 1792]
}

/// The array before any call of a handler.
fn array_of(handler: &AnyHandler) -> [u8; 1792]
    ensures { IsReady handler.now result }
{
    match handler {
        AnyHandler::Flat(image) => clear_array(image),
        AnyHandler::Span(_) => [0; 1792],
    }
}

impl OpenHandler {
    ghost use Rattle.std.specs.Prelude.{◌≡◌, ◌≤◌, ◌*◌, ◌/◌, ◌%◌, IfOk, IfErr, length};
    ghost use Rattle.interp.specs.Image.{the_image};
    ghost use Rattle.c_runs.specs.Calls.{AreReported, IsCallableForm, IsSeat};
    ghost use Rattle.native.specs.AnyForm.{IsNativeOf};
    ghost use Rattle.c_runs.specs.MachineCode.{IsUnmade};

    /// A handler before its first call.
    pub fn new(handler: AnyHandler) -> OpenHandler
        ensures { result ≡ the_image handler }
    {
        let mem = array_of(&handler);
        OpenHandler {
            handler,
            mem,
            effects: Effects::new(),
        }
    }

    /// The form of its image.
    pub fn form(&self) -> FileForm
        ensures { result ≡ self.now.form }
    {
        self.handler.form()
    }

    /// The machine code of its image.
    pub fn compile(&self, alloc: Global) -> Result<Vec<u8>, ImageRefusal>
        ensures made { IfOk result (λ code. IsNativeOf self.now code.items) }
        ensures refused { IfErr result IsUnmade }
    {
        match compile_handler(alloc, &self.handler) {
            Ok(code) => Ok(code.into_bytes()),
            Err(_) => Err(ImageRefusal::Image(ImageError::Memory)),
        }
    }

    /// The length of its state in bytes.
    pub fn state_len(&self) -> usize
        ensures { result ≡ self.now.len }
    {
        self.handler.state_len() as usize
    }

    /// Calls it with each message of 64 bytes in turn, and writes the reports from the front of
    /// `out`.
    pub fn call_each(&mut self, state: &mut [u8], messages: &[u8], who: Who, out: &mut [u8])
        requires seat { IsSeat who }
        requires form { IsCallableForm self.old }
        requires state { length state.old ≡ self.old.len }
        requires whole { length messages.now % MESSAGE ≡ 0 }
        requires room { REPORT_LIMIT * (length messages.now / MESSAGE) ≤ length out.old }
        ensures reported { AreReported self.old who state.old messages.now state.new out.old out.new }
        ensures same { self.new ≡ self.old }
    {
        match &self.handler {
            AnyHandler::Flat(image) => call_each(
                image,
                &mut self.mem,
                &mut self.effects,
                state,
                messages,
                who,
                out,
            ),
            AnyHandler::Span(program) => {
                call_spans(program, &mut self.effects, state, messages, who, out)
            }
        }
    }
}
