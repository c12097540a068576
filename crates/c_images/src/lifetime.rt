//! Image files that are opened once.

ghost use Rattle.std.specs.Prelude.{◌≡◌, Option, Some, None, IfOk, IfErr};
ghost use Rattle.interp.specs.Image.{TheImage};
ghost use Rattle.c_runs.specs.Calls.{IsTypableFile};
ghost use Rattle.c_runs.specs.Exports.{IsFileRefusal};
ghost use Rattle.c_images.specs.Handles.{owns_image, Opens};

use c_handles::{Loose, code};
use c_runs::handler::OpenHandler;
use c_runs::refusal::ImageRefusal;
use interp::Handler as AnyHandler;
use std::alloc::Global;
use std::marker::Model;
use std::ptr::null_mut;
use verifier::ImageError;

/// The result of opening a file: a code, and the pointer to an image, which is null if there is
/// none.
pub struct Opened {
    pub(crate) at: *mut OpenHandler,
    pub(crate) code: u32,
    pub ghost held: { Option TheImage },
}

impl Model for Opened {
    ghost also_owns = { λ o. owns_image o.at o.held };
}

impl Opened {
    /// The image of a box.
    fn of(image: Loose<OpenHandler, Global>) -> Opened
        ensures code { result.code ≡ 0 }
        ensures held { result.held ≡ Some image.value }
    {
        let Loose { at, alloc: _ } = image;
        Opened { at, code: 0 }
    }

    /// No image.
    fn refused(code: u32) -> Opened
        ensures code { result.code ≡ code }
        ensures held { result.held ≡ None }
    {
        Opened {
            at: null_mut(),
            code,
        }
    }
}

/// The image of a file, on the heap.
fn boxed(alloc: Global, file: &[u8]) -> Result<Box<OpenHandler>, ImageRefusal>
    ensures image { IfOk result (λ image. IsTypableFile image.value file.now) }
    ensures refused { IfErr result (IsFileRefusal file.now) }
{
    match AnyHandler::load(alloc, file) {
        Ok(handler) => match Box::new(alloc, OpenHandler::new(handler)) {
            Ok(image) => Ok(image),
            Err(_) => Err(ImageRefusal::Image(ImageError::Memory)),
        },
        Err(error) => Err(ImageRefusal::Image(error)),
    }
}

/// Opens a file.
pub fn open(alloc: Global, file: &[u8]) -> Opened
    ensures { Opens result.code file.now result.held }
{
    match boxed(alloc, file) {
        Ok(image) => Opened::of(Loose::of(image)),
        Err(refusal) => Opened::refused(code(Err(refusal))),
    }
}

/// Gives the memory of an image back.
pub(crate) fn close(image: Loose<OpenHandler, Global>) {
    drop(image.into_box());
}
