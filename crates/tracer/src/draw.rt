//! The command `draw`.

ghost use Rattle.std.specs.Prelude.{◌≡◌, ℕ, List, [], IfErr, IfOk, OnErr, OnOk, Some, string_bytes};
ghost use Rattle.cli.specs.Asks.{Draw};
ghost use Rattle.tracer.specs.Draw.{IsDrawn};
ghost use Rattle.tracer.specs.Inside.{IsWriteFault};
ghost use Rattle.tracer.specs.Program.{IsAnswer, Leaves, SparesImages};

use diagram::{Run, draw};
use image_commands::{Fault, Files, Loaded, Site, load_scenario, spare, spare_images};
use runner::{Moment, chronicle_of};
use scenario::Allowed;
use std::alloc::{AllocError, Global};

/// The lines of the refused orders, as `run` prints them.
fn refused_lines(alloc: Global, moments: &[Moment]) -> Result<String, AllocError> {
    let mut lines = String::new(alloc);
    for (line, refused) in moments {
        if let Some(number) = refused {
            let told = format!(in alloc; "line {line} refused {number}\n")?;
            lines.push_str(told.as_str())?;
        }
    }
    Ok(lines)
}

/// The picture of a scenario's run, of all packets or of messages alone, as the text of an SVG file. The place for it must be
/// none of the scenario's images. The site keeps which orders were refused.
fn picture_of<F: Files>(
    alloc: Global,
    path: &str,
    place: &str,
    only_messages: bool,
    files: &mut F,
    site: &mut Site,
) -> Result<String, Fault>
    ensures drawn { IfOk result (λ t. (bytes : List ℕ) → F.content files.old path.now ≡ Some bytes
        → IsDrawn (F.content files.old) bytes only_messages (string_bytes t)) }
    ensures spared { OnOk result (SparesImages (F.content files.old) path.now place.now) }
    ensures same { F.content files.new ≡ F.content files.old }
    ensures fault { IfErr result (IsWriteFault F.may_be_one (F.content files.old) (F.failed files.new) (Draw path.now place.now only_messages)) }
{
    let Loaded { scenario, images } = load_scenario(alloc, path, Allowed::All, files, site)?;
    spare_images(alloc, &scenario.processes, place, files)?;
    let chronicle = chronicle_of(alloc, &scenario, images)?;
    let run = Run {
        entries: chronicle.entries.as_slice(),
        moments: chronicle.moments.as_slice(),
        sent: chronicle.sent.as_slice(),
        shown: chronicle.shown.as_slice(),
    };
    let text = draw(alloc, &scenario.processes, &run, only_messages)?;
    site.note = refused_lines(alloc, run.moments)?;
    Ok(text)
}

/// Carries out the orders of a scenario, and writes the picture of the run into a file: of all packets or of messages alone.
pub fn draw_scenario<F: Files>(
    alloc: Global,
    path: &str,
    picture: &str,
    only_messages: bool,
    files: &mut F,
    site: &mut Site,
) -> Result<(), Fault>
    ensures report { OnOk result (IsAnswer (F.content files.old) (Draw path.now picture.now only_messages) []) }
    ensures left { OnOk result (Leaves (Draw path.now picture.now only_messages) (F.content files.old) (F.content files.new)) }
    ensures fault { IfErr result (IsWriteFault F.may_be_one (F.content files.old) (F.failed files.new) (Draw path.now picture.now only_messages)) }
    ensures kept { OnErr result (F.content files.new ≡ F.content files.old) }
{
    spare(alloc, path, picture, files)?;
    let text = picture_of(alloc, path, picture, only_messages, files, site)?;
    site.write(picture, text.as_str().as_bytes(), files)?;
    Ok(())
}
