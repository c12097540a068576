//! What helpers refused in a run, in words.

use helpers::Refused;
use indexmap::IndexMap;
use scenario::{NamedProcess, name_at};
use sessions::Service;
use std::alloc::{AllocError, Global};

/// Writes a line for each cause of which helpers refused sends or outputs of a process.
fn push_causes(
    alloc: Global,
    lines: &mut String,
    name: &str,
    refused: Refused,
) -> Result<(), AllocError> {
    let causes = [
        (
            refused.no_peer,
            "sends were refused: no other process has the number (they count from 1, by their lines)",
        ),
        (
            refused.full,
            "outputs or sends were refused: a call has at most 8 of each",
        ),
        (
            refused.long,
            "outputs or sends were refused: one has at most 256 bytes",
        ),
    ];
    for (count, cause) in causes {
        if count > 0 {
            let line = format!(in alloc; "process {name}: {count} {cause}\n")?;
            lines.push_str(line.as_str())?;
        }
    }
    Ok(())
}

/// The lines of all processes, in the order of their numbers.
fn refused_lines(
    alloc: Global,
    processes: &IndexMap<String, NamedProcess>,
    session: &Service,
) -> Result<String, AllocError> {
    let mut lines = String::new(alloc);
    for index in 0..session.count() {
        let process = index + 1;
        push_causes(
            alloc,
            &mut lines,
            name_at(processes, process),
            session.refused(process),
        )?;
    }
    Ok(lines)
}

/// Makes these lines the note, if there is memory. They are hints for people, and no contract names them.
pub fn note_refused(
    alloc: Global,
    note: &mut String,
    processes: &IndexMap<String, NamedProcess>,
    session: &Service,
) {
    if let Ok(lines) = refused_lines(alloc, processes, session) {
        *note = lines;
    }
}
