//! From a text to a scenario.

ghost use Rattle.std.specs.Prelude.{◌≡◌, ◌≤◌, ◌∷◌, IfOk, IfErr, OnOk, length};
ghost use Rattle.scenario.specs.Inside.Loop.{Declares, left, lines_left};
ghost use Rattle.scenario.specs.Process.{IsFresh, names_of};
ghost use Rattle.scenario.specs.Scenario.{AreLines, IsFault, IsRefusal, IsScenario, lines_of};
ghost use Rattle.scenario.specs.declared.scenario.ScenarioError.TheVariants.{Memory};

use crate::line::{Line, line_of};
use crate::order::{Allowed, Order};
use crate::process::NamedProcess;
use crate::split::split_at_line_feed;
use indexmap::IndexMap;
use std::alloc::{AllocError, AllocFailed, Global};
use thiserror::Error;

/// An order, with the number of its line, from 1.
#[derive(Clone, Copy, PartialEq, Eq)]
pub struct Step {
    pub line: usize,
    pub order: Order,
}

/// A run as it is asked for: 1 to 15 processes by their names, in the order of their numbers, and
/// what to do with them.
#[derive(Drop)]
pub struct Scenario {
    pub processes: IndexMap<String, NamedProcess>,
    pub steps: Vec<Step>,
}

/// Why a text is no scenario.
#[derive(Debug, Drop, PartialEq, Eq, Error)]
pub enum ScenarioError {
    /// The first faulty line, from 1; or 0 if no line is faulty and there is no process.
    #[error("scenario refused at line {0}")]
    Line(usize),
    /// Memory ran out.
    #[error("memory")]
    Memory,
}

impl From<AllocError> for ScenarioError {
    ghost from_gives = { λ _ e. e ≡ Memory };

    fn from(_e: AllocError) -> ScenarioError {
        ScenarioError::Memory
    }
}

impl<T: Drop> From<AllocFailed<T>> for ScenarioError {
    ghost from_gives = { λ _ e. e ≡ Memory };

    fn from(_e: AllocFailed<T>) -> ScenarioError {
        ScenarioError::Memory
    }
}

/// The scenario of a text that may have these orders (docs/FORMATS.md, "Scenario"). The whole text
/// is checked. The error names the first faulty line.
pub fn parse(alloc: Global, text: &str, allowed: Allowed) -> Result<Scenario, ScenarioError>
    ensures found { IfOk result (IsScenario allowed text.now) }
    ensures refused { IfErr result (IsRefusal allowed text.now) }
{
    let scenario = read_lines(alloc, text, allowed)?;
    if scenario.processes.is_empty() {
        return Err(ScenarioError::Line(0));
    }
    Ok(scenario)
}

/// The processes and the steps of all lines.
fn read_lines(alloc: Global, text: &str, allowed: Allowed) -> Result<Scenario, ScenarioError>
    ensures found { IfOk result (λ s. AreLines allowed (lines_of text.now) s.processes.entries s.steps.items) }
    ensures refused { IfErr result (IsRefusal allowed text.now) }
{
    let mut processes = IndexMap::new(alloc);
    let mut steps: Vec<Step> = Vec::new(alloc);
    let mut number = 0;
    let mut rest = Some(text);
    while let Some(here) = rest {
        let (line, after) = cut_line(here);
        number += 1;
        let Some(what) = line_of(&processes, !steps.is_empty(), line) else {
            return Err(ScenarioError::Line(number));
        };
        match what {
            Line::Silent => {}
            Line::Process { name, path } => declare(alloc, &mut processes, number, name, path)?,
            Line::Order(order) => {
                if !allowed.take(&order) {
                    return Err(ScenarioError::Line(number));
                }
                steps.push(Step {
                    line: number,
                    order,
                })?;
            }
        }
        rest = after;
    }
    Ok(Scenario { processes, steps })
}

/// Adds a process after those that are there.
fn declare(
    alloc: Global,
    processes: &mut IndexMap<String, NamedProcess>,
    line: usize,
    name: &str,
    path: &str,
) -> Result<(), ScenarioError>
    requires { IsFresh name.now (names_of processes.old) }
    ensures added { OnOk result (Declares line name.now path.now processes.old.entries processes.new.entries) }
    ensures refused { IfErr result (λ e. e ≡ Memory) }
{
    let path = String::from_str(alloc, path)?;
    let key = String::from_str(alloc, name)?;
    processes.insert(key, NamedProcess { line, path })?;
    Ok(())
}

/// The first line, and what follows its line feed.
fn cut_line(text: &str) -> (&str, Option<&str>)
    ensures lines { lines_of text.now ≡ result.0.now ∷ lines_left result.1 }
    ensures shorter { left result.1 ≤ length text.now }
{
    match split_at_line_feed(text) {
        Some((line, after)) => (line, Some(after)),
        None => (text, None),
    }
}
