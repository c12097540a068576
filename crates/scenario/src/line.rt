//! Lines of a scenario.

ghost use Rattle.std.specs.Prelude.{◌≡◌, ◌↔◌, IsTrue, not};
ghost use Rattle.std.specs.List.{list_all};
ghost use Rattle.scenario.specs.Inside.Loop.{ReadsDeclaration, ReadsLine, TellsFree};
ghost use Rattle.scenario.specs.Process.{AreNamed, IsPath, is_blank, names_of};
ghost use Rattle.scenario.specs.Scenario.{is_silent};

use crate::order::{Order, order_of};
use crate::process::{NamedProcess, is_name};
use crate::split::split_at_space;
use indexmap::IndexMap;
use limits::PROCESSES;

/// What a line says.
pub enum Line<'a> {
    /// An empty line, or a comment.
    Silent,
    /// The next process.
    Process { name: &'a str, path: &'a str },
    Order(Order),
}

/// What a line says after these processes; `begun` tells whether an order came before it.
pub fn line_of<'a>(
    processes: &IndexMap<String, NamedProcess>,
    begun: bool,
    text: &'a str,
) -> Option<Line<'a>>
    requires { AreNamed processes.now }
    ensures { ReadsLine (names_of processes.now) begun text.now result }
{
    if is_silent(text.as_bytes()) {
        return Some(Line::Silent);
    }
    match declaration_of(processes, begun, text) {
        Some((name, path)) => Some(Line::Process { name, path }),
        None => {
            let order = order_of(processes, text)?;
            Some(Line::Order(order))
        }
    }
}

/// Whether a line is empty or a comment.
fn is_silent(line: &[u8]) -> bool
    ensures { result ≡ is_silent line.now }
{
    line.is_empty() || line[0] == b'#'
}

/// Whether the text is a path: not empty, and without a blank.
fn is_path(text: &str) -> bool
    ensures { IsTrue result ↔ IsPath text.now }
{
    let bytes = text.as_bytes();
    !bytes.is_empty() && has_no_blank(bytes)
}

/// Whether no byte is a space, a tab or a carriage return.
fn has_no_blank(text: &[u8]) -> bool
    ensures { result ≡ list_all (λ c. not (is_blank c)) text.now }
{
    text.iter()
        .all(|byte| !matches!(byte, b' ' | b'\t' | b'\r'))
}

/// Whether the next process may have this name.
fn is_free(processes: &IndexMap<String, NamedProcess>, name: &str) -> bool
    ensures { TellsFree name.now (names_of processes.now) result }
{
    match processes.get_index_of(name) {
        Some(_) => false,
        None => true,
    }
}

/// The name and the path of the next process, if this is its line.
fn declaration_of<'a>(
    processes: &IndexMap<String, NamedProcess>,
    begun: bool,
    text: &'a str,
) -> Option<(&'a str, &'a str)>
    requires { AreNamed processes.now }
    ensures { ReadsDeclaration (names_of processes.now) begun text.now result }
{
    if begun || processes.len() >= PROCESSES {
        return None;
    }
    let (word, operands) = split_at_space(text)?;
    if word != "process" {
        return None;
    }
    let (name, path) = split_at_space(operands)?;
    if !is_name(name) {
        return None;
    }
    if !is_path(path) {
        return None;
    }
    if !is_free(processes, name) {
        return None;
    }
    Some((name, path))
}
