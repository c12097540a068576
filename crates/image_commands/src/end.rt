//! How a command line ends: by its text or its fault.

ghost use Rattle.std.specs.Prelude.{◌≡◌, ◌≢◌, ◌≤◌, ◌⊎◌, true, [], IfErr, IsOk, OnErr, OnOk};
ghost use Rattle.std.specs.Io.KnownBytes.{Appends};
ghost use Rattle.image_commands.specs.Hints.{AreHints};
ghost use Rattle.image_commands.specs.Ends.{IsEnd, IsHalf};
ghost use Rattle.image_commands.specs.Fault.{Tells};
ghost use Rattle.image_commands.specs.declared.fault.Fault.TheVariants.{InputOutput, Memory};

use crate::fault::Fault;
use crate::said::said_of;
use crate::site::Site;
use crate::stream::Stream;
use std::alloc::Global;

/// Prints a text, if it is not empty.
fn show<O: Stream>(text: &str, out: &mut O) -> Result<(), Fault>
    ensures printed { OnOk result (Appends (O.contents out.old) (O.contents out.new) text.now) }
    ensures failed { OnErr result (O.failed out.new ≡ true) }
    ensures fault { IfErr result (λ f. (f ≡ Memory) ⊎ (f ≡ InputOutput)) }
    ensures none { text.now ≡ [] → IsOk result × (out.new ≡ out.old) }
{
    if text.is_empty() {
        return Ok(());
    }
    out.print(text)?;
    Ok(())
}

/// Prints the note on a command that was carried out, if hints are asked for.
fn say<E: Stream>(hints: bool, note: &str, err: &mut E)
    ensures { AreHints E.contents E.failed hints err.old err.new }
{
    if hints {
        let _said = show(note, err);
    }
}

/// Tells a fault, and hints below it, if they are asked for.
fn tell_text<E: Stream>(fault: &Fault, hints: bool, said: &str, err: &mut E) -> u8
    ensures told { Tells hints fault.now (E.failed err.new) (E.contents err.old) (E.contents err.new) result }
    ensures status { (2 ≤ result) × (result ≤ 6) }
{
    if hints {
        fault.tell_with(said, err)
    } else {
        fault.tell(err)
    }
}

/// Tells a fault with the hints on its file.
fn tell<E: Stream>(alloc: Global, fault: &Fault, hints: bool, site: &Site, err: &mut E) -> u8
    ensures told { Tells hints fault.now (E.failed err.new) (E.contents err.old) (E.contents err.new) result }
    ensures status { (2 ≤ result) × (result ≤ 6) }
{
    let said = said_of(alloc, fault, site);
    tell_text(fault, hints, said.as_str(), err)
}

/// Prints the text of a command, or tells its fault, with hints if they are asked for. Answers the exit status.
pub fn print_or_tell<O: Stream, E: Stream>(
    alloc: Global,
    ended: Result<(), Fault>,
    text: &str,
    hints: bool,
    site: &Site,
    out: &mut O,
    err: &mut E,
) -> u8
    ensures done { result ≡ 0 → IsOk ended × Appends (O.contents out.old) (O.contents out.new) text.now
        × AreHints E.contents E.failed hints err.old err.new }
    ensures told { result ≢ 0 → IsEnd ended text.now hints (O.failed out.new) (E.failed err.new) (E.contents err.old) (E.contents err.new) result }
    ensures silent { result ≢ 0 → (out.new ≡ out.old) ⊎ ((O.failed out.new ≡ true)
        ⊎ IsHalf ended text.now (E.failed err.new) (O.contents out.old) (O.contents out.new) result) }
    ensures status { (result ≡ 0) ⊎ ((2 ≤ result) × (result ≤ 6)) }
{
    match ended {
        Ok(()) => match show(text, out) {
            Ok(()) => {
                say(hints, site.note.as_str(), err);
                0
            }
            Err(fault) => tell_text(&fault, hints, "", err),
        },
        Err(fault) => match show(text, out) {
            Ok(()) => tell(alloc, &fault, hints, site, err),
            Err(failure) => tell_text(&failure, hints, "", err),
        },
    }
}
