//! A process that collects: it asks its peers what their logs hold for it.

ghost use Rattle.std.specs.Prelude.{◌≡◌, ◌≢◌, ◌≤◌, ◌<◌, ◌+◌, ◌^◌, true, false, IfOk, OnOk, OnErr};
ghost use Rattle.std.specs.List.{list_all};
ghost use Rattle.packets.specs.Packet.{entries_in_range};
ghost use Rattle.node.specs.Limit.{AreAllowed};
ghost use Rattle.node.specs.Node.{IsPeer, IsPositive};
ghost use Rattle.recovery.specs.Own.{comes_back, is_process, is_short};
ghost use Rattle.recovery.specs.Collection.{asks, asked, begins, revived, answers, took_page, asks_anew, asked_by, handed, told_of};
ghost use Rattle.recovery.specs.Stands.{Revives, Acts, IsHanded, Takes};

use crate::collected::Collected;
use crate::own::Own;
use node::{Limits, MOST_GIVEN, MOST_RECEIVED};
use packets::{Body, Flags, Kept, KeptLog, LoggedMessage, NodePacket};
use std::alloc::{AllocError, Global};
use std::marker::Model;

/// A process that comes back, and what its peers have told.
#[derive(Drop)]
pub struct Collecting {
    pub(crate) own: Own,
    pub(crate) told: Vec<Collected>,
}

impl Model for Collecting {
    ghost use Rattle.recovery.specs.Collection.{TheCollecting, IsCollecting};

    ghost Value = { TheCollecting };

    ghost view = { λ n. record { own = n.own; told = n.told.items } };

    ghost invariant = { λ n. IsCollecting n.own n.told.items };
}

/// Whether a process can come back from this kept state: each number is in range, and no more
/// messages were sent than its received messages can cause.
pub fn comes_back(kept: &Kept) -> bool
    ensures { result ≡ comes_back kept.now }
{
    if !is_process(kept) || !kept.is_in_range() || kept.length > MOST_RECEIVED {
        return false;
    }
    are_short(MOST_GIVEN as u64 * kept.length + 2, kept.logs.as_slice())
}

/// Whether it is the state of a process of a cluster, with counts and logs for each peer.
fn is_process(kept: &Kept) -> bool
    ensures { result ≡ is_process kept.now }
{
    let peers = kept.count as usize;
    0 < kept.me
        && kept.me <= kept.count
        && kept.count <= 15
        && kept.counts.as_slice().len() == peers
        && kept.logs.as_slice().len() == peers
}

/// Whether each log has fewer messages than `most`, those that were dropped included.
fn are_short(most: u64, logs: &[KeptLog]) -> bool
    requires { most < 2 ^ 63 }
    ensures { result ≡ list_all (is_short most) logs.now }
{
    logs.iter().all(|log| is_short(most, log))
}

fn is_short(most: u64, log: &KeptLog) -> bool
    requires { most < 2 ^ 63 }
    ensures { result ≡ is_short most log.now }
{
    log.first
        .saturating_add(log.payloads.as_slice().len() as u64)
        < most
}

impl Collecting {
    /// A process comes back from its kept state in this incarnation, which counts from 1. It keeps
    /// these limits from now on, and asks all its peers.
    pub fn revive(
        alloc: Global,
        limits: Limits,
        kept: &Kept,
        incarnation: u64,
    ) -> Result<Collecting, AllocError>
        requires limits { AreAllowed limits }
        requires kept { comes_back kept.now ≡ true }
        requires incarnation { IsPositive incarnation }
        ensures value { IfOk result (λ n. n ≡ revived limits kept.now incarnation) }
        ensures acts { IfOk result (λ n. Revives kept.now incarnation n) }
    {
        let mut node = Collecting::begin(alloc, limits, kept, incarnation)?;
        node.ask_all();
        Ok(node)
    }

    fn begin(
        alloc: Global,
        limits: Limits,
        kept: &Kept,
        incarnation: u64,
    ) -> Result<Collecting, AllocError>
        requires limits { AreAllowed limits }
        requires kept { comes_back kept.now ≡ true }
        requires incarnation { IsPositive incarnation }
        ensures { IfOk result (λ n. n ≡ begins limits kept.now incarnation) }
    {
        let mut told = Vec::new(alloc);
        for made in 0..kept.count as usize + 1 {
            told.push(Collected::new(alloc, kept.length))?;
        }
        let own = Own::kept(alloc, limits, kept, incarnation)?;
        Ok(Collecting { own, told })
    }

    /// Takes the first packet that waits to be sent, if there is one.
    pub fn take(&mut self) -> Option<NodePacket>
        ensures { Takes result self.old self.new }
    {
        self.own.pop()
    }

    /// Asks the peers again that haven't told all.
    pub fn tick(&mut self)
        ensures value { self.new ≡ asked self.old }
        ensures acts { Acts self.old self.new }
    {
        self.ask_all();
    }

    /// Takes a packet: the answer of a peer to the last question, or the Ask of a peer that is
    /// recovering too, which it answers. It drops anything else. A refusal changes nothing.
    pub fn receive(&mut self, alloc: Global, packet: &NodePacket) -> Result<(), AllocError>
        ensures value { OnOk result (self.new ≡ handed packet.now self.old) }
        ensures acts { OnOk result (IsHanded packet.now self.old self.new) }
        ensures err { OnErr result (self.new ≡ self.old) }
    {
        // For the proof: reading a field gives the invariant.
        let _known = self.told.len();
        self.hand(alloc, packet)
    }

    fn ask_all(&mut self)
        ensures { self.new ≡ asked self.old }
    {
        let me = self.own.me();
        for to in 0..self.own.count() + 1 {
            if to != me {
                self.ask(to);
            }
        }
    }

    fn ask(&mut self, to: u8)
        requires { to ≤ self.old.own.count }
        ensures { self.new ≡ asks to self.old }
    {
        let told = &self.told[to as usize];
        if !told.done {
            let above = told.cursor;
            let incarnation = self.own.life;
            self.own.put(to, Body::Ask { incarnation, above });
        }
    }

    fn hand(&mut self, alloc: Global, packet: &NodePacket) -> Result<(), AllocError>
        ensures ok { OnOk result (self.new ≡ handed packet.now self.old) }
        ensures err { OnErr result (self.new ≡ self.old) }
    {
        if !self.own.is_for(packet) || !packet.body.is_in_range() {
            return Ok(());
        }
        match &packet.body {
            Body::Told {
                incarnation,
                teller,
                above,
                flags,
                entries,
            } => {
                if self.is_answer(packet.from, *incarnation, *teller, *above) {
                    self.add(packet.from, *teller, *flags, entries.as_slice())?;
                }
                Ok(())
            }
            Body::Ask { incarnation, above } => {
                self.receive_ask(alloc, packet.from, *incarnation, *above);
                Ok(())
            }
            _ => Ok(()),
        }
    }

    /// Whether a page answers the last question to a peer.
    fn is_answer(&self, from: u8, life: u64, teller: u64, above: u64) -> bool
        requires { from ≤ self.now.own.count }
        ensures { result ≡ answers from life teller above self.now }
    {
        let told = &self.told[from as usize];
        life == self.own.life
            && self.own.heard(from) <= teller
            && !told.done
            && above == told.cursor
    }

    /// Adds a page, and asks the peer for the next one.
    fn add(
        &mut self,
        from: u8,
        teller: u64,
        flags: Flags,
        page: &[LoggedMessage],
    ) -> Result<(), AllocError>
        requires peer { IsPeer self.old.own.me self.old.own.count from }
        requires open { (told_of self.old.told from).done ≡ false }
        requires page { entries_in_range (told_of self.old.told from).cursor flags page.now ≡ true }
        ensures ok { OnOk result (self.new ≡ took_page from teller flags page.now self.old) }
        ensures err { OnErr result (self.new ≡ self.old) }
    {
        self.told[from as usize].add(flags, page)?;
        self.own.learn(from, teller, flags);
        self.ask(from);
        Ok(())
    }

    /// Takes an Ask: `from` is recovering too, in its incarnation `life`, and asks what the log
    /// holds for it above this RSN. Answers that all of it is lost; drops an Ask of an earlier
    /// incarnation.
    fn receive_ask(&mut self, alloc: Global, from: u8, life: u64, above: u64)
        requires { IsPeer self.old.own.me self.old.own.count from }
        ensures { self.new ≡ asked_by from life above self.old }
    {
        let heard = self.own.heard(from);
        if life < heard {
            return;
        }
        if heard < life {
            self.ask_anew(alloc, from, life);
        }
        self.own.lose(alloc, from, life, above);
    }

    /// Hears a newer incarnation of a peer: it has told nothing yet, and is asked anew.
    fn ask_anew(&mut self, alloc: Global, from: u8, life: u64)
        requires { IsPeer self.old.own.me self.old.own.count from }
        ensures { self.new ≡ asks_anew from life self.old }
    {
        self.told[from as usize] = Collected::new(alloc, self.own.base());
        self.own.hear_anew(from, life);
        self.ask(from);
    }
}
