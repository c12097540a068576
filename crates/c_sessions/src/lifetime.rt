//! Opening a session from image files.

ghost use Rattle.std.specs.Prelude.{◌≡◌, ◌≤◌, MatchResult, OnOk, IfOk, IfErr, length, map};
ghost use Rattle.interp.specs.Image.{image_in};
ghost use Rattle.c_sessions.specs.Inside.Loads.{AreMore, AreOpened, IsOneMore, IsUnread, opened};
ghost use Rattle.c_sessions.specs.Lifetime.{IsImageIn, IsMisfit, IsOpened, IsRefused, IsUnopened};
ghost use Rattle.c_sessions.specs.Session.{Results};

use crate::fault::SessionFault;
use crate::handle::SessionHandle;
use interp::Handler;
use limits::PROCESSES;
use sessions::Service;
use std::alloc::Global;
use std::sync::Arc;
use verifier::ImageError;
use world::Refusal;

/// The handler of an image file.
fn handler_of(alloc: Global, file: &[u8]) -> Result<Arc<Handler>, SessionFault>
    ensures { MatchResult result (λ image. IsImageIn file.now (image_in image)) (IsUnread (IsRefused file.now)) }
{
    let image = match Handler::load(alloc, file) {
        Ok(image) => image,
        Err(ImageError::Memory) => return Err(SessionFault::Session(Refusal::Memory)),
        Err(_) => return Err(SessionFault::File),
    };
    match Arc::new(alloc, image) {
        Ok(image) => Ok(image),
        Err(_) => Err(SessionFault::Session(Refusal::Memory)),
    }
}

/// Loads the image of a file, after those that are there.
fn load(alloc: Global, file: &[u8], images: &mut Vec<Arc<Handler>>) -> Result<(), SessionFault>
    ensures loaded { OnOk result (IsOneMore file.now (map image_in images.old.items) (map image_in images.new.items)) }
    ensures refused { IfErr result (IsUnread (IsRefused file.now)) }
{
    let image = handler_of(alloc, file)?;
    if images.push(image).is_err() {
        return Err(SessionFault::Session(Refusal::Memory));
    }
    Ok(())
}

/// Loads the images of files that come one after the other, each as long as its length says.
fn load_each(
    alloc: Global,
    files: &[u8],
    lengths: &[u32],
    images: &mut Vec<Arc<Handler>>,
) -> Result<(), SessionFault>
    ensures loaded { OnOk result (AreMore files.now lengths.now (map image_in images.old.items) (map image_in images.new.items)) }
    ensures refused { IfErr result (IsUnread (IsMisfit files.now lengths.now)) }
{
    let Some((first, rest)) = lengths.split_first() else {
        if !files.is_empty() {
            return Err(SessionFault::File);
        }
        return Ok(());
    };
    let size = *first as usize;
    if size > files.len() {
        return Err(SessionFault::File);
    }
    let (file, others) = files.split_at(size);
    load(alloc, file, images)?;
    load_each(alloc, others, rest, images)
}

/// A session of these images on the heap.
fn boxed(alloc: Global, images: Vec<Arc<Handler>>) -> Result<Box<Service>, SessionFault>
    ensures { MatchResult result (λ b. b.value ≡ opened (map image_in images.items)) (IsUnread ⊥) }
{
    // There are 1 to 15 images, so only memory can be lacking.
    let Ok(service) = Service::open(alloc, images) else {
        return Err(SessionFault::Session(Refusal::Memory));
    };
    match Box::new(alloc, service) {
        Ok(service) => Ok(service),
        Err(_) => Err(SessionFault::Session(Refusal::Memory)),
    }
}

/// A session of the images of these files on the heap.
fn session_of(alloc: Global, files: &[u8], lengths: &[u32]) -> Result<Box<Service>, SessionFault>
    ensures opened { IfOk result (λ b. AreOpened files.now lengths.now b.value) }
    ensures refused { IfErr result (IsUnread (IsMisfit files.now lengths.now)) }
{
    let mut images = Vec::new(alloc);
    load_each(alloc, files, lengths, &mut images)?;
    boxed(alloc, images)
}

/// Opens a session of the images of files that come one after the other, each as long as its length
/// says. The first is of process 1.
pub(crate) fn open(
    alloc: Global,
    files: &[u8],
    lengths: &[u32],
    handle: &mut SessionHandle,
) -> Result<(), SessionFault>
    ensures { Results result handle.old.session.value handle.new.session.value (IsOpened files.now lengths.now) (IsUnopened files.now lengths.now) }
{
    if handle.is_open() {
        return Err(SessionFault::Handle);
    }
    if lengths.is_empty() || lengths.len() > PROCESSES {
        return Err(SessionFault::Session(Refusal::NoSuchProcess));
    }
    handle.put(session_of(alloc, files, lengths)?);
    Ok(())
}
