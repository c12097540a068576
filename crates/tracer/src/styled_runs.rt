//! The command `run` in another style.

ghost use Rattle.std.specs.Prelude.{◌≡◌, IfErr, IfOk, string_bytes};
ghost use Rattle.cli.specs.Asks.{Tell};
ghost use Rattle.tracer.specs.Program.{IsAnswer, IsFault};

use image_commands::{Fault, Files, Loaded, Site, load_scenario};
use runner::tell;
use scenario::Allowed;
use std::alloc::Global;

/// Carries out the orders of a scenario, and gives the refused lines, the trace and the report, as lines of JSON, or with names
/// in place of numbers, or both.
pub fn tell_scenario<F: Files>(
    alloc: Global,
    path: &str,
    json: bool,
    names: bool,
    files: &mut F,
    site: &mut Site,
) -> Result<String, Fault>
    ensures report { IfOk result (λ t. IsAnswer (F.content files.old) (Tell path.now json names) (string_bytes t)) }
    ensures same { F.content files.new ≡ F.content files.old }
    ensures fault { IfErr result (IsFault (F.content files.old) (F.failed files.new) (Tell path.now json names)) }
{
    let Loaded { scenario, images } = load_scenario(alloc, path, Allowed::All, files, site)?;
    let text = tell(alloc, &scenario, images, json, names)?;
    Ok(text)
}
