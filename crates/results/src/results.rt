//! The trace and the report of a session.

ghost use Rattle.std.specs.Prelude.{◌≡◌, ◌≤◌, ◌++◌, IfOk, OnErr, OnOk, length, string_bytes};
ghost use Rattle.scenario.specs.Process.{names_of};
ghost use Rattle.scenario.specs.Trace.{trace_text};
ghost use Rattle.sessions.specs.Journal.{is_exact, world_at};
ghost use Rattle.results.specs.Results.{outputs_text, process_text_of, processes_text, report_text, results_text};

use indexmap::IndexMap;
use scenario::{NamedProcess, name_at, push_exact, push_output, push_process};
use sessions::{Service, copied};
use std::alloc::{AllocError, Global};
use world::Message;

/// Writes the line of a process.
fn push_state(out: &mut String, name: &str, session: &Service, p: u8) -> Result<(), AllocError>
    requires { (1 ≤ p) × (p ≤ length session.now.images) }
    ensures { OnOk result (string_bytes out.new ≡ string_bytes out.old ++ process_text_of (world_at session.now) p name.now) }
{
    push_process(
        out,
        name,
        session.phase(p),
        session.length(p),
        session.state(p),
    )
}

/// Writes a line for each process, in the order of their numbers.
fn push_processes(
    out: &mut String,
    processes: &IndexMap<String, NamedProcess>,
    session: &Service,
) -> Result<(), AllocError>
    requires { length processes.now.entries ≡ length session.now.images }
    ensures { OnOk result (string_bytes out.new ≡ string_bytes out.old ++ processes_text (world_at session.now) (names_of processes.now)) }
{
    for index in 0..session.count() {
        let p = index + 1;
        push_state(out, name_at(processes, p), session, p)?;
    }
    Ok(())
}

/// Writes a line for each output, in the order in which they were shown.
fn push_outputs(
    out: &mut String,
    processes: &IndexMap<String, NamedProcess>,
    shown: &[Message],
) -> Result<(), AllocError>
    ensures { OnOk result (string_bytes out.new ≡ string_bytes out.old ++ outputs_text (names_of processes.now) shown.now) }
{
    for message in shown {
        let name = name_at(processes, message.sender);
        push_output(out, name, message.ssn, message.payload.as_slice())?;
    }
    Ok(())
}

/// The trace of a session's journal.
fn trace(alloc: Global, session: &Service) -> Result<String, AllocError>
    ensures { IfOk result (λ text. string_bytes text ≡ trace_text session.now.entries) }
{
    let entries = copied(alloc, session.journal())?;
    scenario::trace_text(alloc, entries.as_slice())
}

/// Writes a line for each process, one for each output, and whether failures came one at a time.
fn push_report(
    out: &mut String,
    processes: &IndexMap<String, NamedProcess>,
    session: &Service,
) -> Result<(), AllocError>
    requires { length processes.now.entries ≡ length session.now.images }
    ensures { OnOk result (string_bytes out.new ≡ string_bytes out.old ++ report_text (names_of processes.now) (world_at session.now) (is_exact session.now)) }
{
    push_processes(out, processes, session)?;
    push_outputs(out, processes, session.shown_since(0))?;
    push_exact(out, session.exact())
}

/// The trace of a session's journal, and its report.
fn results(
    alloc: Global,
    processes: &IndexMap<String, NamedProcess>,
    session: &Service,
) -> Result<String, AllocError>
    requires { length processes.now.entries ≡ length session.now.images }
    ensures { IfOk result (λ text. string_bytes text ≡ results_text (names_of processes.now) session.now.images session.now.entries) }
{
    let mut text = trace(alloc, session)?;
    push_report(&mut text, processes, session)?;
    Ok(text)
}

/// Writes the trace and the report of a session of these processes (docs/FORMATS.md, "Trace" and "Report"). Only memory can
/// run out, and then nothing is written.
pub fn push_results(
    alloc: Global,
    out: &mut String,
    processes: &IndexMap<String, NamedProcess>,
    session: &Service,
) -> Result<(), AllocError>
    requires { length processes.now.entries ≡ length session.now.images }
    ensures written { OnOk result (string_bytes out.new ≡ string_bytes out.old ++ results_text (names_of processes.now) session.now.images session.now.entries) }
    ensures unchanged { OnErr result (string_bytes out.new ≡ string_bytes out.old) }
{
    let text = results(alloc, processes, session)?;
    out.push_str(text.as_str())
}
