//! Hints on a run: why orders were refused, and what is left to do.

ghost use Rattle.hints.specs.Told.{IsAdded};

use crate::rest::Rest;
use crate::why::{Act, Told, Why, named_in};
use indexmap::IndexMap;
use scenario::{NamedProcess, Order, Scenario, Step, name_at};
use std::alloc::{AllocError, Global};
use std::fmt;
use world::{Call, PhaseName, Refusal};

const FULL: &str = "the journal is full: do messages go round and round? drive fewer calls";

const WAITS: &str = "it waits for acknowledgements: drive N above this line sends it";

const DOWN: &str = "$a is down, and what is sent to it waits: recover $a, drive N bring it back";

const BESIDE: &str = "$a is down, and $b isn't up: alone $a, drive N bring $a back";

const PEER: &str = "$b is down: recover $b comes first, or if $a is down too, alone $a, drive N";

const WAITING: &str =
    "$b is on its way back, and may wait for $a: alone $a, drive N in place of this line bring $a back";

const UNSENT: &str =
    "$a has sent $b no message $n (each receiver's are numbered from 1): drive N makes it work";

const BACK: &str = "$a is on its way back: one more drive N brings it up";

const WIRE: &str = "work is left, as a packet on the wire: one more drive N carries it on";

const SENDS: &str = "work is left, as message $n of $a to $b: one more drive N carries it on";

/// A sentence with marks: `$a` and `$b` for the names of two processes, `$n` and `$m` for numbers.
#[derive(Clone, Copy)]
struct Sentence<'a> {
    words: &'static str,
    a: &'a str,
    b: &'a str,
    n: u64,
    m: u64,
}

impl fmt::Display for Sentence<'_> {
    fn fmt<W: fmt::Write>(&self, f: &mut fmt::Formatter<W>) -> fmt::Result {
        let (a, b, n, m) = (self.a, self.b, self.n, self.m);
        for (place, part) in self.words.split('$').enumerate() {
            let (mark, rest) = match part.split_at_checked(1) {
                Some(parts) if place > 0 => parts,
                _ => ("", part),
            };
            match mark {
                "a" => write!(f, "{a}{rest}")?,
                "b" => write!(f, "{b}{rest}")?,
                "n" => write!(f, "{n}{rest}")?,
                "m" => write!(f, "{m}{rest}")?,
                _ => write!(f, "{mark}{rest}")?,
            }
        }
        Ok(())
    }
}

/// Of an order of process `$a`, or one that needs process `$b`, that the process's phase doesn't allow.
fn phase_words(told: &Told, phase: PhaseName) -> &'static str {
    match (told.refusal, phase) {
        (Refusal::NotUp, PhaseName::Down) if matches!(&told.order, Order::Crash { .. }) => {
            "$a is down already"
        }
        (Refusal::NotUp, PhaseName::Down) => "$a is down: recover $a, drive N above this line",
        (Refusal::PeerNotUp, PhaseName::Down) => PEER,
        (Refusal::PeerNotUp, _) if matches!(&told.order, Order::Recover { .. }) => WAITING,
        (Refusal::PeerNotUp, _) => "$b is on its way back: drive N above this line brings it up",
        (Refusal::NotDown, PhaseName::Up | PhaseName::Busy) => {
            "$a is up: crash $a comes before recover $a"
        }
        (Refusal::WrongPhase, _) => "$a has no such call to make: drive N makes those that it has",
        (Refusal::Busy, _) => "$a works on a message: finish $a above this line ends that",
        _ => "$a is on its way back: drive N above this line brings it up",
    }
}

/// Of a message that its sender's log doesn't have.
fn message_words(told: &Told, ssn: u32) -> &'static str {
    match told.refusal {
        Refusal::NotLogged if ssn == 0 => "messages are numbered from 1",
        Refusal::NotLogged => "message $n of $a to $b was trimmed",
        _ => UNSENT,
    }
}

/// Of an order of which only the refusal is known.
fn number_words(refusal: Refusal) -> &'static str {
    match refusal {
        Refusal::Busy => "its process works on a message: finish above this line ends that",
        Refusal::NoPacket =>
            "no packet has key $n: transmit makes one, and the trace tells its key",
        Refusal::SameProcess => "both names are the same",
        Refusal::StaleJob => "no job of $a is held: an arrival starts one, and none came",
        Refusal::JournalFull => FULL,
        Refusal::WireFull => "the wire is full: arrive and lose take packets from it",
        _ => "it isn't allowed here",
    }
}

/// Of an order that entry `$m` of the trace forestalled.
fn done_words(act: Act) -> &'static str {
    match act {
        Act::Takes(_) => "key $n has no packet any more: entry $m of the trace took it",
        Act::Ends(_) => "no job of $a is held: entry $m of the trace ended the last one",
    }
}

/// Why an order was refused: a sentence, the other process that it names, and its numbers.
fn cause(told: &Told, key: u32) -> (&'static str, u8, u64, u64) {
    let key = u64::from(key);
    match told.why {
        Why::Phase { process, phase } => (phase_words(told, phase), process, 0, 0),
        Why::Logged { to, .. } => (WAITS, to, 0, 0),
        Why::Unlogged { to, ssn, .. } => (message_words(told, ssn), to, u64::from(ssn), 0),
        Why::Done { act, entry } => (done_words(act), 0, key, entry.saturating_add(1) as u64),
        Why::Number => (number_words(told.refusal), 0, key, 0),
    }
}

/// What is left to do: a sentence, the processes that it names, and a number.
fn left(rest: Rest) -> (&'static str, u8, u8, u64) {
    match rest {
        Rest::Down { process } => (DOWN, process, 0, 0),
        Rest::DownBeside { process, other } => (BESIDE, process, other, 0),
        Rest::Held { process } => ("a job of $a is held: finish $a runs it", process, 0, 0),
        Rest::Full { .. } => (FULL, 0, 0, 0),
        Rest::Next {
            call: Call::Transmit { from, to, ssn },
        } => (SENDS, from, to, u64::from(ssn)),
        Rest::Next {
            call: Call::ReplayBegin { process } | Call::Resync { process, .. },
        } => (BACK, process, 0, 0),
        Rest::Next { .. } => (WIRE, 0, 0, 0),
        Rest::Nothing => ("", 0, 0, 0),
    }
}

/// The name of a process, or of the outside.
fn name_of(processes: &IndexMap<String, NamedProcess>, process: u8) -> &str {
    if process == 0 {
        return "outside";
    }
    name_at(processes, process)
}

/// Of a line that does less than it seems to.
fn step_words(step: &Step) -> &'static str {
    match &step.order {
        Order::Drive { budget: 0 } => "drive 0 makes no call: drive N makes at most N",
        Order::Bytes { payload, .. } => match payload.as_slice() {
            [0, _, _, _, _, _, _, low] if *low > 0 => {
                "the lowest byte of a number comes first: 5 is 0500000000000000"
            }
            _ => "",
        },
        _ => "",
    }
}

/// Adds why orders were refused.
fn push_told(
    alloc: Global,
    note: &mut String,
    processes: &IndexMap<String, NamedProcess>,
    told: &[Told],
) -> Result<(), AllocError> {
    for one in told {
        let (process, key) = named_in(&one.order);
        let (words, other, n, m) = cause(one, key);
        let (a, b) = (name_of(processes, process), name_of(processes, other));
        let (line, said) = (one.line, Sentence { words, a, b, n, m });
        let line = format!(in alloc; "line {line}: {said}\n")?;
        note.push_str(line.as_str())?;
    }
    Ok(())
}

/// Adds which lines do less than they seem to.
fn push_steps(alloc: Global, note: &mut String, steps: &[Step]) -> Result<(), AllocError> {
    for step in steps {
        let (line, words) = (step.line, step_words(step));
        if !words.is_empty() {
            let line = format!(in alloc; "line {line}: {words}\n")?;
            note.push_str(line.as_str())?;
        }
    }
    Ok(())
}

/// Adds what is left to do.
fn push_left(
    alloc: Global,
    note: &mut String,
    processes: &IndexMap<String, NamedProcess>,
    rest: Rest,
) -> Result<(), AllocError> {
    let (words, process, other, n) = left(rest);
    let (a, b, m) = (name_of(processes, process), name_of(processes, other), 0);
    let said = Sentence { words, a, b, n, m };
    let line = format!(in alloc; "{said}\n")?;
    note.push_str(line.as_str())
}

/// Adds the hints on a run: on work that is left only if there is no other hint.
fn push_run(
    alloc: Global,
    lines: &mut String,
    scenario: &Scenario,
    told: &[Told],
    rest: Rest,
    is_alone: bool,
) -> Result<(), AllocError> {
    push_told(alloc, lines, &scenario.processes, told)?;
    push_steps(alloc, lines, scenario.steps.as_slice())?;
    if is_alone && lines.is_empty() && rest != Rest::Nothing {
        push_left(alloc, lines, &scenario.processes, rest)?;
    }
    Ok(())
}

/// Adds the hints on a run to a note, if there is memory. A note that has other lines gets none on work that is left.
pub fn note_run(alloc: Global, note: &mut String, scenario: &Scenario, told: &[Told], rest: Rest)
    ensures { IsAdded note.old note.new }
{
    let (mut lines, is_alone) = (String::new(alloc), note.is_empty());
    if push_run(alloc, &mut lines, scenario, told, rest, is_alone).is_ok() {
        let _noted = note.push_str(lines.as_str());
    }
}
