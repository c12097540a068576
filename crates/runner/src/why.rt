//! Why a session refused an order.

ghost use Rattle.std.specs.Prelude.{◌≡◌, true};
ghost use Rattle.runner.specs.Why.{AreKept, Holds, IsAct};

use crate::rest::other_not_up;
use hints::{Act, Told, Why, named_in};
use scenario::{Order, Step};
use sessions::Service;
use world::{Call, Refusal};

/// How many refused orders a hint explains at most.
const TOLD: usize = 16;

/// Keeps why a session refused the order of a step, if it is one of the first and there is memory.
pub fn keep_told(told: &mut Vec<Told>, session: &Service, step: &Step, refusal: Refusal)
    ensures { AreKept session.now told.old.items told.new.items }
{
    if told.len() >= TOLD {
        return;
    }
    let _kept = told.push(Told {
        line: step.line,
        order: step.order,
        refusal,
        why: why_of(session, &step.order, refusal),
    });
}

/// Why a session refused an order with this number.
pub fn why_of(session: &Service, order: &Order, refusal: Refusal) -> Why
    ensures { Holds session.now result }
{
    let (process, key) = named_in(order);
    match refusal {
        Refusal::NotUp | Refusal::Busy => phase_of(session, process),
        Refusal::NotDown | Refusal::WrongPhase => phase_of(session, process),
        Refusal::NoPacket => last_act(session, Act::Takes(key as usize)),
        Refusal::NotReleased | Refusal::NotLogged => message_of(session, order),
        Refusal::PeerNotUp => peer_of(session, order),
        Refusal::StaleJob => last_act(session, Act::Ends(process)),
        _ => Why::Number,
    }
}

/// The phase of a process, if the session has it.
fn phase_of(session: &Service, process: u8) -> Why
    ensures { Holds session.now result }
{
    if process == 0 || process > session.count() {
        return Why::Number;
    }
    let phase = session.phase(process);
    Why::Phase { process, phase }
}

/// The process that the order needs and that isn't up.
fn peer_of(session: &Service, order: &Order) -> Why
    ensures { Holds session.now result }
{
    if let Order::Resync { peer, .. } = *order {
        return phase_of(session, peer);
    }
    let (but, _) = named_in(order);
    match other_not_up(session, but) {
        Some(process) => phase_of(session, process),
        None => Why::Number,
    }
}

/// What became of the message of an order.
fn message_of(session: &Service, order: &Order) -> Why
    ensures { Holds session.now result }
{
    let Order::Transmit { from, to, ssn } = *order else {
        return Why::Number;
    };
    if session.logged(from, to, ssn).is_some() {
        return Why::Logged { from, to, ssn };
    }
    Why::Unlogged { from, to, ssn }
}

/// Whether a call did this.
fn is_act(act: Act, call: &Call) -> bool
    ensures { result ≡ true → IsAct act call.now }
{
    match (act, *call) {
        (Act::Takes(key), Call::Arrive { key: taken } | Call::Lose { key: taken }) => taken == key,
        (Act::Ends(of), Call::Finish { process } | Call::Crash { process }) => process == of,
        _ => false,
    }
}

/// The last entry whose call did this.
fn last_act(session: &Service, act: Act) -> Why
    ensures { Holds session.now result }
{
    let journal = session.journal();
    for back in 0..journal.len() {
        let entry = journal.len() - 1 - back;
        let Some(slip) = journal.get(entry) else {
            continue;
        };
        if is_act(act, &slip.entry().call) {
            return Why::Done { act, entry };
        }
    }
    Why::Number
}
