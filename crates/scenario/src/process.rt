//! Processes and their names.

ghost use Rattle.std.specs.Prelude.{◌≡◌, ◌↔◌, ◌≤◌, IsTrue, length};
ghost use Rattle.std.specs.List.{list_all};
ghost use Rattle.scenario.specs.Inside.Reads.{IsParty, Reads};
ghost use Rattle.scenario.specs.Order.{IsName, IsProcess, begins_with_letter, is_name_byte, party_text, process_text};
ghost use Rattle.scenario.specs.Process.{AreNamed, names_of};

use indexmap::IndexMap;

/// The most bytes of a name.
pub(crate) const NAME_LIMIT: usize = 16;

/// What a scenario says of a process, without its name.
#[derive(Drop)]
pub struct NamedProcess {
    /// The number of its line, from 1.
    pub line: usize,
    /// The path of its image.
    pub path: String,
}

/// Whether the text is letters and digits only.
fn are_name_bytes(text: &[u8]) -> bool
    ensures { result ≡ list_all is_name_byte text.now }
{
    text.iter()
        .all(|byte| byte.is_ascii_lowercase() || byte.is_ascii_digit())
}

/// Whether the first byte is a letter.
fn begins_with_letter(text: &[u8]) -> bool
    ensures { result ≡ begins_with_letter text.now }
{
    !text.is_empty() && text[0].is_ascii_lowercase()
}

/// Whether the text is a name: 1 to 16 letters and digits, the first a letter, and not `outside`.
pub fn is_name(text: &str) -> bool
    ensures { IsTrue result ↔ IsName text.now }
{
    let bytes = text.as_bytes();
    begins_with_letter(bytes)
        && are_name_bytes(bytes)
        && bytes.len() <= NAME_LIMIT
        && text != "outside"
}

/// The number of the process with this name.
pub fn named_process(processes: &IndexMap<String, NamedProcess>, text: &str) -> Option<u8>
    requires { AreNamed processes.now }
    ensures { Reads (process_text (names_of processes.now)) (IsProcess (length (names_of processes.now))) text.now result }
{
    let index = processes.get_index_of(text)?;
    Some(index as u8 + 1)
}

/// The number of the process with this name, or 0 for the outside.
pub fn party_of(processes: &IndexMap<String, NamedProcess>, text: &str) -> Option<u8>
    requires { AreNamed processes.now }
    ensures { Reads (party_text (names_of processes.now)) (IsParty (length (names_of processes.now))) text.now result }
{
    if text == "outside" {
        return Some(0);
    }
    named_process(processes, text)
}
