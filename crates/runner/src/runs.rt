//! Runs of a scenario.

ghost use Rattle.std.specs.Prelude.{◌≡◌, ◌≢◌, ◌≤◌, ◌+◌, ◌*◌, ◌++◌, ℕ, IfErr, IfOk, List, OnErr, OnOk, Some, length, map, string_bytes, string_capacity, string_len};
ghost use Rattle.interp.specs.Image.{TheImage, image_in};
ghost use Rattle.machine.specs.Openings.{AreFew};
ghost use Rattle.scenario.specs.Process.{names_of};
ghost use Rattle.runner.specs.Orders.{FindsNoMemory, beginning};
ghost use Rattle.runner.specs.Inside.{ArePlayed, ArePlayedTo, IsPlayed, position_of};
ghost use Rattle.runner.specs.Run.{IsCut, IsRun, refused_text};

use crate::player::Player;
use crate::rest::rest_of;
use crate::why::keep_told;
use hints::{Told, note_run};
use interp::Handler;
use itoa::Buffer;
use results::{note_refused, push_results};
use scenario::{Scenario, Step};
use std::alloc::{AllocError, Global};
use std::sync::Arc;
use world::Refusal;

/// How many bytes the line of a refused order has at most: 20 digits of its line, and 3 of a number.
const LINE_BYTES: usize = 38;

/// Makes room for a line of each of so many orders. If there is none, nothing changes.
fn make_room(out: &mut String, orders: usize) -> Result<(), AllocError>
    ensures bytes { string_bytes out.new ≡ string_bytes out.old }
    ensures room { OnOk result (string_len out.new + LINE_BYTES * orders ≤ string_capacity out.new) }
{
    let Some(bytes) = orders.checked_mul(LINE_BYTES) else {
        return Err(AllocError);
    };
    out.reserve(bytes)
}

/// Appends a text to one that has room for it.
fn push_reserved(out: &mut String, text: &str)
    requires { string_len out.old + length text.now ≤ string_capacity out.old }
    ensures bytes { string_bytes out.new ≡ string_bytes out.old ++ text.now }
    ensures len { string_len out.new ≡ string_len out.old + length text.now }
    ensures capacity { string_capacity out.old ≤ string_capacity out.new }
{
    match out.push_str(text) {
        Ok(()) => (),
        Err(_) => unreachable!(),
    }
}

/// Writes the line of a refused order, if there is room for it.
fn push_refused(out: &mut String, line: usize, number: u8)
    requires { string_len out.old + LINE_BYTES ≤ string_capacity out.old }
    ensures written { string_bytes out.new ≡ string_bytes out.old ++ refused_text line (Some number) }
    ensures len { string_len out.new ≤ string_len out.old + LINE_BYTES }
    ensures capacity { string_capacity out.old ≤ string_capacity out.new }
{
    let mut digits = Buffer::new();
    push_reserved(out, "line ");
    push_reserved(out, digits.format(line));
    push_reserved(out, " refused ");
    push_reserved(out, digits.format(number));
    push_reserved(out, "\n");
}

impl Player {
    /// Carries out the order of a step, and writes its line if it is refused. If memory runs out, the run ends and nothing is
    /// written.
    fn obey(
        &mut self,
        step: &Step,
        out: &mut String,
        told: &mut Vec<Told>,
    ) -> Result<(), AllocError>
        requires { string_len out.old + LINE_BYTES ≤ string_capacity out.old }
        ensures done { OnOk result (IsPlayed step.now (position_of self.old) (position_of self.new) (string_bytes out.old) (string_bytes out.new)) }
        ensures memory { OnErr result (FindsNoMemory (position_of self.old) step.now.order) }
        ensures unchanged { OnErr result (string_bytes out.new ≡ string_bytes out.old) }
        ensures len { string_len out.new ≤ string_len out.old + LINE_BYTES }
        ensures capacity { string_capacity out.old ≤ string_capacity out.new }
    {
        let Err(refusal) = self.carry_out(&step.order) else {
            return Ok(());
        };
        match refusal {
            Refusal::Memory => Err(AllocError),
            other => {
                push_refused(out, step.line, other.number());
                keep_told(told, &self.session, step, other);
                Ok(())
            }
        }
    }

    /// Carries out the orders of all steps.
    fn play(
        &mut self,
        steps: &[Step],
        out: &mut String,
        told: &mut Vec<Told>,
    ) -> Result<(), AllocError>
        requires { string_len out.old + LINE_BYTES * length steps.now ≤ string_capacity out.old }
        ensures done { OnOk result (ArePlayed steps.now (position_of self.old) (position_of self.new) (string_bytes out.old) (string_bytes out.new)) }
        ensures short { OnErr result (ArePlayedTo steps.now (position_of self.old) (string_bytes out.old) (string_bytes out.new)) }
    {
        for step in steps {
            self.obey(step, out, told)?;
        }
        Ok(())
    }

    /// Makes room for the lines of refused orders, and carries out the orders of all steps.
    fn perform(
        &mut self,
        steps: &[Step],
        out: &mut String,
        told: &mut Vec<Told>,
    ) -> Result<(), AllocError>
        ensures done { OnOk result (ArePlayed steps.now (position_of self.old) (position_of self.new) (string_bytes out.old) (string_bytes out.new)) }
        ensures short { (images : List TheImage) → position_of self.old ≡ beginning images → OnErr result (IsCut images steps.now (string_bytes out.old) (string_bytes out.new)) }
    {
        make_room(out, steps.len())?;
        self.play(steps, out, told)
    }
}

/// Carries out the orders in a session of these images, and answers the player.
fn played(
    alloc: Global,
    steps: &[Step],
    images: Vec<Arc<Handler>>,
    out: &mut String,
    told: &mut Vec<Told>,
) -> Result<Player, AllocError>
    requires { AreFew (map image_in images.items) }
    ensures done { IfOk result (λ player. ArePlayed steps.now (beginning (map image_in images.items)) (position_of player) (string_bytes out.old) (string_bytes out.new)) }
    ensures short { OnErr result (IsCut (map image_in images.items) steps.now (string_bytes out.old) (string_bytes out.new)) }
{
    let mut player = Player::open(alloc, images)?;
    player.perform(steps, out, told)?;
    Ok(player)
}

/// Carries out the orders of a scenario in a session of these images, 1 to 15, one for each process
/// (docs/FORMATS.md, "Carrying out"). It writes the line of each refused order, then the trace and the
/// report. If memory runs out, which counts for a message above 2^32 too, it wrote refused lines alone:
/// it makes room for these before the first order, so an order that a number refuses never ends the
/// run. The note gets a line for each process and cause for which helpers refused sends or outputs, then
/// why orders were refused, and what is left to do.
pub fn run(
    alloc: Global,
    scenario: &Scenario,
    images: Vec<Arc<Handler>>,
    out: &mut String,
    note: &mut String,
) -> Result<(), AllocError>
    requires few { AreFew (map image_in images.items) }
    requires named { length scenario.now.processes.entries ≡ length images.items }
    ensures done { OnOk result (IsRun (names_of scenario.now.processes) (map image_in images.items) scenario.now.steps.items (string_bytes out.old) (string_bytes out.new)) }
    ensures short { OnErr result (IsCut (map image_in images.items) scenario.now.steps.items (string_bytes out.old) (string_bytes out.new)) }
{
    let mut told = Vec::new(alloc);
    let player = played(alloc, scenario.steps.as_slice(), images, out, &mut told)?;
    // This call has the clause that the journal is legal.
    let _journal = player.session.journal();
    note_refused(alloc, note, &scenario.processes, &player.session);
    let rest = rest_of(&player.session);
    note_run(alloc, note, scenario, told.as_slice(), rest);
    push_results(alloc, out, &scenario.processes, &player.session)
}
