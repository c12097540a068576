//! Operands with a space between them.

ghost use Rattle.scenario.specs.Inside.Reads.{ReadsBytes, ReadsMessage, ReadsPeers, ReadsReceiver, ReadsWord};
ghost use Rattle.scenario.specs.Process.{AreNamed, names_of};

use crate::hex::payload_of;
use crate::number::{number_of, word_of};
use crate::process::{NamedProcess, named_process, party_of};
use crate::split::split_at_space;
use helpers::Payload;
use indexmap::IndexMap;

/// A process and a word.
pub fn receiver_and_word(
    processes: &IndexMap<String, NamedProcess>,
    text: &str,
) -> Option<(u8, u64)>
    requires { AreNamed processes.now }
    ensures { ReadsWord (names_of processes.now) text.now result }
{
    let (name, word) = split_at_space(text)?;
    let process = named_process(processes, name)?;
    let number = word_of(word)?;
    Some((process, number))
}

/// A process and bytes.
pub fn receiver_and_payload(
    processes: &IndexMap<String, NamedProcess>,
    text: &str,
) -> Option<(u8, Payload)>
    requires { AreNamed processes.now }
    ensures { ReadsBytes (names_of processes.now) text.now result }
{
    let (name, bytes) = split_at_space(text)?;
    let process = named_process(processes, name)?;
    let payload = payload_of(bytes)?;
    Some((process, payload))
}

/// Two processes.
pub fn two_processes(processes: &IndexMap<String, NamedProcess>, text: &str) -> Option<(u8, u8)>
    requires { AreNamed processes.now }
    ensures { ReadsPeers (names_of processes.now) text.now result }
{
    let (left, right) = split_at_space(text)?;
    let process = named_process(processes, left)?;
    let peer = named_process(processes, right)?;
    Some((process, peer))
}

/// A receiver and an SSN.
fn party_and_number(processes: &IndexMap<String, NamedProcess>, text: &str) -> Option<(u8, u32)>
    requires { AreNamed processes.now }
    ensures { ReadsReceiver (names_of processes.now) text.now result }
{
    let (name, number) = split_at_space(text)?;
    let party = party_of(processes, name)?;
    let ssn = number_of(number)?;
    Some((party, ssn))
}

/// A sender, a receiver and an SSN.
pub fn party_and_message(
    processes: &IndexMap<String, NamedProcess>,
    text: &str,
) -> Option<(u8, (u8, u32))>
    requires { AreNamed processes.now }
    ensures { ReadsMessage (names_of processes.now) text.now result }
{
    let (name, message) = split_at_space(text)?;
    let sender = party_of(processes, name)?;
    let rest = party_and_number(processes, message)?;
    Some((sender, rest))
}
