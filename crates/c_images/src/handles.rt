//! The functions for C that open an image once and call its handler often. C holds a pointer, which
//! it passes to one call at a time and closes once.

ghost use Rattle.std.specs.Prelude.{◌≡◌, Option};
ghost use Rattle.std.specs.Borrow.{sem};
ghost use Rattle.interp.specs.Image.{TheImage};
ghost use Rattle.c_runs.specs.Calls.{caller};
ghost use Rattle.c_images.specs.Handles.{owns_image, state_len_of, Opens};
ghost use Rattle.c_runs.specs.Runs.{Runs};
ghost use Rattle.c_runs.specs.MachineCode.{Compiles};

use crate::lifetime::{Opened, close, open};
use c_handles::Loose;
use c_runs::handler::OpenHandler;
use c_runs::machine_code::compile;
use c_runs::runs::run;
use std::alloc::Global;

/// The code of a null handle.
const NULL: u32 = 10;

/// What a handle points to; C knows nothing of it.
#[repr(C)]
pub struct Handle {
    byte: u8,
}

/// Opens an image file. The handle is null if the file is refused.
#[unsafe(no_mangle)]
pub extern "C" fn sblog_open(alloc: Global, file: &[u8], handle: &mut *mut Handle) -> u32
    ensures* { ∃ₛ (λ held. sem 𝓛 (owns_image handle.new held) ∗ ⌜ Opens result file.now held ⌝) }
{
    let Opened { at, code } = open(alloc, file);
    *handle = at.cast::<Handle>();
    code
}

/// The length of the state in bytes, 0 for a null handle.
#[unsafe(no_mangle)]
pub unsafe extern "C" fn sblog_state_len(handle: *mut Handle) -> usize
    ghost held: { Option TheImage }
    requires* { sem 𝓛 (owns_image handle held) }
    ensures* { sem 𝓛 (owns_image handle held) ∗ ⌜ result ≡ state_len_of held ⌝ }
{
    if handle.is_null() {
        return 0;
    }
    let handler = handle.cast::<OpenHandler>();
    (&*handler).state_len()
}

/// Calls the handler with each message of 64 bytes in turn. Changes the state in place, and writes
/// the reports into `out`, one after another. `out` has at least 1,064 bytes for each message.
#[unsafe(no_mangle)]
pub unsafe extern "C" fn sblog_run(
    handle: *mut Handle,
    state: &mut [u8],
    messages: &[u8],
    me: u8,
    from: u8,
    count: u8,
    out: &mut [u8],
) -> u32
    ghost held: { Option TheImage }
    requires* { sem 𝓛 (owns_image handle held) }
    ensures* { sem 𝓛 (owns_image handle held) ∗ ⌜ Runs result held (caller me from count) state.old messages.now state.new out.old out.new ⌝ }
{
    if handle.is_null() {
        return NULL;
    }
    let handler = handle.cast::<OpenHandler>();
    run(&mut *handler, state, messages, me, from, count, out)
}

/// Writes the machine code of an image to the front of `out`, and its length in bytes into `size`.
/// If `out` is too short, writes only the length.
#[unsafe(no_mangle)]
pub unsafe extern "C" fn sblog_compile(
    alloc: Global,
    handle: *mut Handle,
    out: &mut [u8],
    size: &mut usize,
) -> u32
    ghost held: { Option TheImage }
    requires* { sem 𝓛 (owns_image handle held) }
    ensures* { sem 𝓛 (owns_image handle held) ∗ ⌜ Compiles result held out.old out.new size.old size.new ⌝ }
{
    if handle.is_null() {
        return NULL;
    }
    let handler = handle.cast::<OpenHandler>();
    compile(alloc, &*handler, out, size)
}

/// Gives the memory of an image back. Does nothing for a null handle.
#[unsafe(no_mangle)]
pub unsafe extern "C" fn sblog_close(alloc: Global, handle: *mut Handle)
    ghost held: { Option TheImage }
    requires* { sem 𝓛 (owns_image handle held) }
{
    if handle.is_null() {
        return;
    }
    close(Loose {
        at: handle.cast::<OpenHandler>(),
        alloc,
    });
}
