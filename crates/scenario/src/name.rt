//! Names of processes.

ghost use Rattle.std.specs.Prelude.{◌≡◌};
ghost use Rattle.scenario.specs.Order.{process_text};
ghost use Rattle.scenario.specs.Process.{names_of};

use crate::process::NamedProcess;
use indexmap::IndexMap;

/// The name of the process with this number, from 1. It is empty if there is no such process.
pub fn name_at(processes: &IndexMap<String, NamedProcess>, number: u8) -> &str
    ensures { result.now ≡ process_text (names_of processes.now) number }
{
    let place = usize::from(number).saturating_sub(1);
    match processes.get_index(place) {
        Some((name, _)) => name.as_str(),
        None => "",
    }
}
