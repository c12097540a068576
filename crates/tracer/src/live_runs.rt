//! The command `live`.

ghost use Rattle.std.specs.Prelude.{◌≡◌, ◌≤◌, [], IfErr, OnErr, OnOk, string_bytes};
ghost use Rattle.cli.specs.Asks.{Live};
ghost use Rattle.tracer.specs.Program.{IsAnswer, IsFault};

use image_commands::{Fault, Files, Loaded, Site, load_scenario};
use limits::WORKERS;
use live::live;
use scenario::Allowed;
use std::alloc::Global;
use std::sync::Wait;
use std::thread::Threads;

/// Runs workers on the messages of a scenario, each until about `budget` of its calls were accepted. Writes the trace and the
/// report of the session that they leave into an empty text.
pub fn live_scenario<R: Threads + Wait + Sync, F: Files>(
    rt: &R,
    alloc: Global,
    path: &str,
    workers: u8,
    budget: u32,
    files: &mut F,
    site: &mut Site,
    text: &mut String,
) -> Result<(), Fault>
    requires workers { (1 ≤ workers) × (workers ≤ WORKERS) }
    requires empty { string_bytes text.old ≡ [] }
    ensures report { OnOk result (IsAnswer (F.content files.old) (Live path.now workers budget) (string_bytes text.new)) }
    ensures same { F.content files.new ≡ F.content files.old }
    ensures fault { IfErr result (IsFault (F.content files.old) (F.failed files.new) (Live path.now workers budget)) }
    ensures none { OnErr result (string_bytes text.new ≡ []) }
{
    let Loaded { scenario, images } = load_scenario(alloc, path, Allowed::Inputs, files, site)?;
    live(
        rt,
        alloc,
        &scenario,
        images,
        workers,
        budget,
        text,
        &mut site.note,
    )?;
    Ok(())
}
