//! A packet.

ghost use Rattle.std.specs.Prelude.{◌≡◌, ◌&&◌};
ghost use Rattle.std.specs.List.{list_all};
ghost use Rattle.packets.specs.Packet.{kind_of, is_number, is_positive, in_range, is_entry_above, is_pair_above, entry_before, pair_before, ascends, entries_in_range, pairs_in_range};

use crate::kind::PacketKind;
use crate::page::{Flags, LoggedMessage, Page, Pair};
use helpers::Payload;

/// Each number is less than this.
pub const NUMBER_LIMIT: u64 = 0x8000_0000_0000_0000;

/// A packet from one node to another. The processes are 1 to `count`, 0 is the gateway.
#[derive(Drop)]
pub struct NodePacket {
    pub count: u8,
    pub from: u8,
    pub to: u8,
    pub body: Body,
}

/// What a packet says. An SSN numbers the messages of one sender to one receiver; a `number` is an
/// RSN, which numbers all messages that a process received.
#[derive(Drop)]
pub enum Body {
    /// A message, and the incarnation of its sender.
    Delivery {
        incarnation: u64,
        ssn: u64,
        payload: Payload,
    },
    /// The RSN that the receiver gave the message, and the receiver's incarnation.
    Number {
        incarnation: u64,
        ssn: u64,
        number: u64,
    },
    /// This RSN is recorded in the sender's log.
    Acknowledgement {
        incarnation: u64,
        number: u64,
    },
    /// What does your log hold for me under RSNs above this one?
    Ask {
        incarnation: u64,
        above: u64,
    },
    /// A page of the teller's log, by RSN and SSN.
    Told {
        incarnation: u64,
        teller: u64,
        above: u64,
        flags: Flags,
        entries: Page<LoggedMessage>,
    },
    /// I keep this many messages. Which of mine do you have after this SSN?
    Resume {
        incarnation: u64,
        kept: u64,
        above: u64,
    },
    /// The first messages are covered for good; a page of the next ones that were received, by SSN.
    Restored {
        incarnation: u64,
        teller: u64,
        covered: u64,
        above: u64,
        flags: Flags,
        pairs: Page<Pair>,
    },
    /// This many of your messages are covered for good.
    Saved {
        covered: u64,
    },
}

impl Body {
    /// Its kind, without the fields.
    pub fn kind(&self) -> PacketKind
        ensures { result ≡ kind_of self.now }
    {
        match self {
            Body::Delivery { .. } => PacketKind::Delivery,
            Body::Number { .. } => PacketKind::Number,
            Body::Acknowledgement { .. } => PacketKind::Acknowledgement,
            Body::Ask { .. } => PacketKind::Ask,
            Body::Told { .. } => PacketKind::Told,
            Body::Resume { .. } => PacketKind::Resume,
            Body::Restored { .. } => PacketKind::Restored,
            Body::Saved { .. } => PacketKind::Saved,
        }
    }

    /// Whether each field is in range.
    pub fn is_in_range(&self) -> bool
        ensures { result ≡ in_range self.now }
    {
        match self {
            Body::Delivery {
                incarnation,
                ssn,
                ..
            } => are_positive(*incarnation, *ssn),
            Body::Number {
                incarnation,
                ssn,
                number,
            } => are_positive(*incarnation, *ssn) && is_positive(*number),
            Body::Acknowledgement {
                incarnation,
                number,
            } => are_positive(*incarnation, *number),
            Body::Ask { incarnation, above } => is_positive(*incarnation) && is_number(*above),
            Body::Told {
                incarnation,
                teller,
                above,
                flags,
                entries,
            } => {
                are_positive(*incarnation, *teller)
                    && is_number(*above)
                    && are_entries(*above, *flags, entries.as_slice())
            }
            Body::Resume {
                incarnation,
                kept,
                above,
            } => is_positive(*incarnation) && are_numbers(*kept, *above),
            Body::Restored {
                incarnation,
                teller,
                covered,
                above,
                flags,
                pairs,
            } => {
                are_positive(*incarnation, *teller)
                    && are_numbers(*covered, *above)
                    && are_pairs(*above, *flags, pairs.as_slice())
            }
            Body::Saved { covered } => is_number(*covered),
        }
    }
}

/// Whether it is below the limit.
fn is_number(n: u64) -> bool
    ensures { result ≡ is_number n }
{
    n < NUMBER_LIMIT
}

/// Whether it is below the limit and not zero.
fn is_positive(n: u64) -> bool
    ensures { result ≡ is_positive n }
{
    n > 0 && n < NUMBER_LIMIT
}

/// Whether both are below the limit.
fn are_numbers(a: u64, b: u64) -> bool
    ensures { result ≡ (is_number a && is_number b) }
{
    is_number(a) && is_number(b)
}

/// Whether both are below the limit and not zero.
fn are_positive(a: u64, b: u64) -> bool
    ensures { result ≡ (is_positive a && is_positive b) }
{
    is_positive(a) && is_positive(b)
}

/// Whether these can be the flags and the entries of a page above this RSN.
#[tactic(auto, unfolding(crate::specs::Packet::entries_in_range))]
fn are_entries(above: u64, flags: Flags, entries: &[LoggedMessage]) -> bool
    ensures { result ≡ entries_in_range above flags entries.now }
{
    flags.bits < 8
        && (flags.done() || !entries.is_empty())
        && are_entries_above(above, entries)
        && entries_ascend(entries)
}

/// Whether the numbers of each entry are in range, and its RSN is above this one.
fn are_entries_above(above: u64, entries: &[LoggedMessage]) -> bool
    ensures { result ≡ list_all (is_entry_above above) entries.now }
{
    entries.iter().all(|e| is_positive(e.number) && is_positive(e.ssn) && above < e.number)
}

/// Whether each entry is before the next one.
fn entries_ascend(entries: &[LoggedMessage]) -> bool
    ensures { result ≡ ascends entry_before entries.now }
{
    entries
        .iter()
        .zip(entries.iter().skip(1))
        .all(|(a, b)| is_before(a, b))
}

/// Whether one entry is before another: by RSN, and by SSN if that is the same.
fn is_before(a: &LoggedMessage, b: &LoggedMessage) -> bool
    ensures { result ≡ entry_before a.now b.now }
{
    a.number < b.number || a.number == b.number && a.ssn < b.ssn
}

/// Whether these can be the flags and the pairs of a page above this SSN.
#[tactic(auto, unfolding(crate::specs::Packet::pairs_in_range))]
fn are_pairs(above: u64, flags: Flags, pairs: &[Pair]) -> bool
    ensures { result ≡ pairs_in_range above flags pairs.now }
{
    flags.bits < 8
        && !flags.lost()
        && (flags.done() || !pairs.is_empty())
        && are_pairs_above(above, pairs)
        && pairs_ascend(pairs)
}

/// Whether the numbers of each pair are in range, and its SSN is above this one.
fn are_pairs_above(above: u64, pairs: &[Pair]) -> bool
    ensures { result ≡ list_all (is_pair_above above) pairs.now }
{
    pairs.iter().all(|p| is_positive(p.number) && is_positive(p.ssn) && above < p.ssn)
}

/// Whether each pair is before the next one.
fn pairs_ascend(pairs: &[Pair]) -> bool
    ensures { result ≡ ascends pair_before pairs.now }
{
    pairs
        .iter()
        .zip(pairs.iter().skip(1))
        .all(|(a, b)| a.ssn < b.ssn)
}
