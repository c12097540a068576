//! Commands whose OUT is a file that they read.

ghost use Rattle.std.specs.Prelude.{◌≡◌, ◌≢◌, ℕ, List, IfErr, OnOk, true};
ghost use Rattle.image_commands.specs.OwnInput.{IsOwnInput};
ghost use Rattle.image_commands.specs.Loads.{IsImagePath};

use crate::fault::Fault;
use crate::files::Files;
use cli::Usage;
use indexmap::IndexMap;
use scenario::NamedProcess;
use std::alloc::Global;

/// Refuses to write over the input.
pub fn spare<F: Files>(alloc: Global, input: &str, output: &str, files: &F) -> Result<(), Fault>
    ensures apart { OnOk result (input.now ≢ output.now) }
    ensures fault { IfErr result (IsOwnInput (F.may_be_one input.now output.now ≡ true)) }
{
    if files.is_one(alloc, input, output)? {
        return Err(Fault::Usage(Usage::own_input(alloc)?));
    }
    Ok(())
}

/// Refuses to write over the image of a process.
pub fn spare_images<F: Files>(
    alloc: Global,
    processes: &IndexMap<String, NamedProcess>,
    output: &str,
    files: &F,
) -> Result<(), Fault>
    ensures apart { OnOk result ((path : List ℕ) → IsImagePath processes.now.entries path → path ≢ output.now) }
    ensures fault { IfErr result (IsOwnInput ((path : List ℕ) × IsImagePath processes.now.entries path
        × (F.may_be_one path output.now ≡ true))) }
{
    for index in 0..processes.len() {
        let Some((_name, process)) = processes.get_index(index) else {
            unreachable!();
        };
        spare(alloc, process.path.as_str(), output, files)?;
    }
    Ok(())
}
