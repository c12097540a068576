//! Runs of a scenario in another style.

ghost use Rattle.std.specs.Prelude.{◌≡◌, ◌≤◌, ◌++◌, IfOk, List, None, OnOk, Some, cond, length, map, option_map, string_bytes};
ghost use Rattle.interp.specs.Image.{TheImage, image_in};
ghost use Rattle.machine.specs.Openings.{AreFew};
ghost use Rattle.scenario.specs.Process.{names_of};
ghost use Rattle.sessions.specs.Journal.{world_at};
ghost use Rattle.scenario.specs.Styles.Lines.{entries_text};
ghost use Rattle.scenario.specs.Styles.Style.{style_of};
ghost use Rattle.results.specs.Results.{numbered};
ghost use Rattle.runner.specs.Inside.{position_of};
ghost use Rattle.runner.specs.Orders.{beginning};
ghost use Rattle.runner.specs.Reports.{IsTelling, outputs_told, process_told, refusals_told, told_text};

use crate::chronicle::Moment;
use crate::player::Player;
use indexmap::IndexMap;
use interp::Handler;
use scenario::{NamedProcess, Scenario, Style, name_at};
use sessions::{Service, copied};
use std::alloc::{AllocError, Global};
use std::sync::Arc;
use world::Message;

/// Writes the line of each refused order.
fn push_refusals(out: &mut String, style: Style<'_>, moments: &[Moment]) -> Result<(), AllocError>
    ensures { OnOk result (string_bytes out.new ≡ string_bytes out.old ++ refusals_told (style_of style.entry) moments.now) }
{
    for moment in moments {
        style.push_refused(out, moment.0, moment.1)?;
    }
    Ok(())
}

/// Writes the line of a process.
fn push_state(
    out: &mut String,
    style: Style<'_>,
    name: &str,
    session: &Service,
    p: u8,
) -> Result<(), AllocError>
    requires { (1 ≤ p) × (p ≤ length session.now.images) }
    ensures { OnOk result (string_bytes out.new ≡ string_bytes out.old ++ process_told (style_of style.entry) (world_at session.now) p name.now) }
{
    style.push_process(
        out,
        name,
        session.phase(p),
        session.length(p),
        session.state(p),
    )
}

/// Writes a line for each process, in the order of their numbers.
fn push_states(
    out: &mut String,
    style: Style<'_>,
    processes: &IndexMap<String, NamedProcess>,
    session: &Service,
) -> Result<(), AllocError>
    requires { length processes.now.entries ≡ length session.now.images }
    ensures { OnOk result (string_bytes out.new ≡ string_bytes out.old ++ numbered (process_told (style_of style.entry) (world_at session.now)) 1 (names_of processes.now)) }
{
    for index in 0..session.count() {
        let p = index + 1;
        push_state(out, style, name_at(processes, p), session, p)?;
    }
    Ok(())
}

/// Writes a line for each output, in the order in which they were shown.
fn push_shown(
    out: &mut String,
    style: Style<'_>,
    processes: &IndexMap<String, NamedProcess>,
    shown: &[Message],
) -> Result<(), AllocError>
    ensures { OnOk result (string_bytes out.new ≡ string_bytes out.old ++ outputs_told (style_of style.entry) (names_of processes.now) shown.now) }
{
    for message in shown {
        let name = name_at(processes, message.sender);
        style.push_output(out, name, message.ssn, message.payload.as_slice())?;
    }
    Ok(())
}

/// Writes the trace of a session's journal.
fn push_trace(
    alloc: Global,
    out: &mut String,
    style: Style<'_>,
    session: &Service,
) -> Result<(), AllocError>
    ensures { OnOk result (string_bytes out.new ≡ string_bytes out.old ++ entries_text (style_of style.entry) session.now.entries) }
{
    let entries = copied(alloc, session.journal())?;
    style.push_entries(out, entries.as_slice())
}

/// Writes the lines of the refused orders among these moments, the trace of the session's journal, and its report.
fn push_told(
    alloc: Global,
    out: &mut String,
    style: Style<'_>,
    processes: &IndexMap<String, NamedProcess>,
    moments: &[Moment],
    session: &Service,
) -> Result<(), AllocError>
    requires { length processes.now.entries ≡ length session.now.images }
    ensures { OnOk result (string_bytes out.new ≡ string_bytes out.old ++ told_text (style_of style.entry) (names_of processes.now) session.now.images moments.now session.now.entries) }
{
    push_refusals(out, style, moments)?;
    push_trace(alloc, out, style, session)?;
    push_states(out, style, processes, session)?;
    push_shown(out, style, processes, session.shown_since(0))?;
    style.push_exact(out, session.exact())
}

/// What `push_told` writes, as a text of its own.
fn told(
    alloc: Global,
    style: Style<'_>,
    processes: &IndexMap<String, NamedProcess>,
    moments: &[Moment],
    session: &Service,
) -> Result<String, AllocError>
    requires { length processes.now.entries ≡ length session.now.images }
    ensures { IfOk result (λ text. string_bytes text ≡ told_text (style_of style.entry) (names_of processes.now) session.now.images moments.now session.now.entries) }
{
    let mut text = String::new(alloc);
    push_told(alloc, &mut text, style, processes, moments, session)?;
    Ok(text)
}

/// The processes, if they are told by their names.
fn names_if(
    named: bool,
    processes: &IndexMap<String, NamedProcess>,
) -> Option<&IndexMap<String, NamedProcess>>
    ensures { option_map (λ m. names_of m.now) result ≡ cond named (Some (names_of processes.now)) None }
{
    if named { Some(processes) } else { None }
}

impl Player {
    /// Carries out the orders of a scenario, and gives the text of [`tell`].
    fn telling(
        &mut self,
        alloc: Global,
        scenario: &Scenario,
        json: bool,
        named: bool,
    ) -> Result<String, AllocError>
        requires { length scenario.now.processes.entries ≡ length self.old.session.images }
        ensures { IfOk result (λ text. (images : List TheImage) → position_of self.old ≡ beginning images → IsTelling (names_of scenario.now.processes) images scenario.now.steps.items json named (string_bytes text)) }
    {
        let notes = self.tell_all(alloc, scenario.steps.as_slice())?;
        // This call has the clause that the journal is legal.
        let _journal = self.session.journal();
        let style = Style {
            json,
            names: names_if(named, &scenario.processes),
        };
        told(
            alloc,
            style,
            &scenario.processes,
            notes.moments.as_slice(),
            &self.session,
        )
    }
}

/// Carries out the orders of a scenario as [`run`](crate::run) does, and gives its text in another style: as lines of JSON, or
/// with names in place of numbers, or both. Only memory can run out.
pub fn tell(
    alloc: Global,
    scenario: &Scenario,
    images: Vec<Arc<Handler>>,
    json: bool,
    named: bool,
) -> Result<String, AllocError>
    requires few { AreFew (map image_in images.items) }
    requires named { length scenario.now.processes.entries ≡ length images.items }
    ensures { IfOk result (λ text. IsTelling (names_of scenario.now.processes) (map image_in images.items) scenario.now.steps.items json named (string_bytes text)) }
{
    let mut player = Player::open(alloc, images)?;
    player.telling(alloc, scenario, json, named)
}
