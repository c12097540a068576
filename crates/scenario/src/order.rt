//! Orders: what a line of a scenario asks for.

ghost use Rattle.std.specs.Prelude.{◌≡◌};
ghost use Rattle.scenario.specs.Inside.Reads.{ReadsOperands, ReadsOrder};
ghost use Rattle.scenario.specs.Order.{takes};
ghost use Rattle.scenario.specs.Process.{AreNamed, names_of};

use crate::number::number_of;
use crate::pair::{party_and_message, receiver_and_payload, receiver_and_word, two_processes};
use crate::process::{NamedProcess, named_process, party_of};
use crate::split::split_at_space;
use crate::verb::{Verb, verb_named};
use helpers::Payload;
use indexmap::IndexMap;

/// What a line asks for. Processes are numbered from 1, in the order of their lines; 0 is the
/// outside.
#[derive(Clone, Copy, PartialEq, Eq)]
pub enum Order {
    /// The outside hands in a word: 8 bytes, little-endian, and then 56 zeros.
    Input { to: u8, word: u64 },
    /// The outside hands in these bytes.
    Bytes { to: u8, payload: Payload },
    Transmit { from: u8, to: u8, ssn: u32 },
    Copy { key: u32 },
    Lose { key: u32 },
    Arrive { key: u32 },
    /// The held job of the process is run, and its result is handed in.
    Finish { process: u8 },
    Checkpoint { process: u8 },
    Trim { to: u8 },
    Crash { process: u8 },
    Recover { process: u8 },
    RecoverAlone { process: u8 },
    ReplayBegin { process: u8 },
    Resync { process: u8, peer: u8 },
    /// Useful calls are made, at most as many as the budget.
    Drive { budget: u32 },
}

/// Which orders a text may have.
#[derive(Clone, Copy, PartialEq, Eq)]
pub enum Allowed {
    All,
    /// Those that hand in a message: `input` and `bytes`.
    Inputs,
}

impl Allowed {
    /// Whether a text may have this order.
    pub(crate) fn take(self, order: &Order) -> bool
        ensures { result ≡ takes self order.now }
    {
        match self {
            Allowed::All => true,
            Allowed::Inputs => matches!(order, Order::Input { .. } | Order::Bytes { .. }),
        }
    }
}

/// The order of a line.
pub fn order_of(processes: &IndexMap<String, NamedProcess>, line: &str) -> Option<Order>
    requires { AreNamed processes.now }
    ensures { ReadsOrder (names_of processes.now) line.now result }
{
    let (word, operands) = split_at_space(line)?;
    let verb = verb_named(word)?;
    with_operands(processes, verb, operands)
}

/// The order of a kind with these operands.
fn with_operands(
    processes: &IndexMap<String, NamedProcess>,
    verb: Verb,
    text: &str,
) -> Option<Order>
    requires { AreNamed processes.now }
    ensures { ReadsOperands (names_of processes.now) verb text.now result }
{
    match verb {
        Verb::Input => input_of(processes, text),
        Verb::Bytes => bytes_of(processes, text),
        Verb::Transmit => transmit_of(processes, text),
        Verb::Copy => Some(Order::Copy {
            key: number_of(text)?,
        }),
        Verb::Lose => Some(Order::Lose {
            key: number_of(text)?,
        }),
        Verb::Arrive => Some(Order::Arrive {
            key: number_of(text)?,
        }),
        Verb::Finish => Some(Order::Finish {
            process: named_process(processes, text)?,
        }),
        Verb::Checkpoint => Some(Order::Checkpoint {
            process: named_process(processes, text)?,
        }),
        Verb::Trim => Some(Order::Trim {
            to: party_of(processes, text)?,
        }),
        Verb::Crash => Some(Order::Crash {
            process: named_process(processes, text)?,
        }),
        Verb::Recover => Some(Order::Recover {
            process: named_process(processes, text)?,
        }),
        Verb::Alone => Some(Order::RecoverAlone {
            process: named_process(processes, text)?,
        }),
        Verb::Replay => Some(Order::ReplayBegin {
            process: named_process(processes, text)?,
        }),
        Verb::Resync => resync_of(processes, text),
        Verb::Drive => Some(Order::Drive {
            budget: number_of(text)?,
        }),
    }
}

/// The order that hands in a word.
fn input_of(processes: &IndexMap<String, NamedProcess>, text: &str) -> Option<Order>
    requires { AreNamed processes.now }
    ensures { ReadsOperands (names_of processes.now) Verb.Input text.now result }
{
    let (to, word) = receiver_and_word(processes, text)?;
    Some(Order::Input { to, word })
}

/// The order that hands in bytes.
fn bytes_of(processes: &IndexMap<String, NamedProcess>, text: &str) -> Option<Order>
    requires { AreNamed processes.now }
    ensures { ReadsOperands (names_of processes.now) Verb.Bytes text.now result }
{
    let (to, payload) = receiver_and_payload(processes, text)?;
    Some(Order::Bytes { to, payload })
}

/// The order that transmits a message.
fn transmit_of(processes: &IndexMap<String, NamedProcess>, text: &str) -> Option<Order>
    requires { AreNamed processes.now }
    ensures { ReadsOperands (names_of processes.now) Verb.Transmit text.now result }
{
    let (from, (to, ssn)) = party_and_message(processes, text)?;
    Some(Order::Transmit { from, to, ssn })
}

/// The order that gives messages to a peer their RSNs back.
fn resync_of(processes: &IndexMap<String, NamedProcess>, text: &str) -> Option<Order>
    requires { AreNamed processes.now }
    ensures { ReadsOperands (names_of processes.now) Verb.Resync text.now result }
{
    let (process, peer) = two_processes(processes, text)?;
    Some(Order::Resync { process, peer })
}
