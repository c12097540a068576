//! The gateway in memory, and the calls of its host.

ghost use Rattle.std.specs.Prelude.{◌≡◌, ◌+◌, ◌<◌, ◌≤◌, [], length, slice_get, true, IfOk, OnOk, OnErr};
ghost use Rattle.world.specs.Handlers.{Handlers};
ghost use Rattle.cluster.specs.Cluster.{opening};
ghost use Rattle.stores.specs.Peer.{last_of, is_kept, number_of};
ghost use Rattle.stores.specs.Store.{Fits, IsOf};
ghost use Rattle.gateway.specs.Gateway.{CanSay, new_gateway, peer_of, posts, happens, delivers, puts_in, hands_out, resent, ticked};
ghost use Rattle.gateway.specs.Stands.{Stands, Acts, Takes};
ghost use Rattle.gateway.specs.Since.{Since, KeepsSince};

use helpers::Payload;
use limits::PROCESSES;
use packets::{Body, LEAST_PAGE, NUMBER_LIMIT, NodePacket, PacketQueue};
use std::alloc::{AllocError, Global};
use std::marker::Model;
use stores::{Change, Output, Store};

/// The way into a cluster and out of it.
#[derive(Drop)]
pub struct Gateway {
    /// The greatest size of a packet, in bytes.
    pub(crate) page: u16,
    /// The greatest number of messages to one process that a tick sends again.
    pub(crate) tick: u32,
    pub(crate) store: Store,
    /// The changes of the store since the host asked for them.
    pub(crate) changes: Vec<Change>,
    pub(crate) out: PacketQueue,
}

impl Model for Gateway {
    ghost use Rattle.gateway.specs.Gateway.{TheGateway, IsGateway};

    ghost Value = { TheGateway };

    ghost view = { λ g. record { page = g.page; tick = g.tick; store = g.store; changes = g.changes.items; out = g.out } };

    ghost invariant = { λ g. IsGateway g.page g.tick g.out };
}

impl Gateway {
    /// The gateway of a new cluster of `count` processes. `page` is the greatest size of a packet
    /// in bytes, `tick` the greatest number of messages to one process that a tick sends again.
    pub fn open(alloc: Global, count: u8, page: u16, tick: u32) -> Result<Gateway, AllocError>
        requires some { 1 ≤ count }
        requires few { count ≤ PROCESSES }
        requires page { LEAST_PAGE ≤ page }
        requires tick { 1 ≤ tick }
        ensures value { IfOk result (λ g. g ≡ new_gateway count page tick) }
        ensures stands { IfOk result (λ g. (f : Handlers) → Stands g (opening count f)) }
    {
        let store = Store::new(alloc, count)?;
        let out = PacketQueue::new(alloc)?;
        Ok(Gateway {
            page,
            tick,
            store,
            changes: Vec::new(alloc),
            out,
        })
    }

    /// What is kept in stable storage.
    pub fn store(&self) -> &Store
        ensures { result.now ≡ self.now.store }
    {
        &self.store
    }

    /// The changes of the store since the last call. The host makes them durable before it sends
    /// what came out since then.
    pub fn changes(&mut self, alloc: Global) -> Vec<Change>
        ensures given { result.items ≡ self.old.changes }
        ensures value { self.new ≡ record self.old { changes = [] } }
        ensures since { Since self.new.store self.new }
        ensures acts { Acts self.old self.new }
    {
        self.tell(alloc)
    }

    fn tell(&mut self, alloc: Global) -> Vec<Change>
        ensures given { result.items ≡ self.old.changes }
        ensures value { self.new ≡ record self.old { changes = [] } }
    {
        std::mem::replace(&mut self.changes, Vec::new(alloc))
    }

    /// Drops these changes, as after [`Gateway::changes_bytes`], and keeps their memory for the
    /// next ones.
    pub fn forget_changes(&mut self)
        ensures value { self.new ≡ record self.old { changes = [] } }
        ensures since { Since self.new.store self.new }
        ensures acts { Acts self.old self.new }
    {
        self.empty();
    }

    fn empty(&mut self)
        ensures { self.new ≡ record self.old { changes = [] } }
    {
        self.changes.clear();
    }

    /// Logs a message from outside for a process, and answers its SSN. A refusal changes nothing.
    pub fn input(&mut self, process: u8, payload: Payload) -> Result<u64, AllocError>
        requires { IsOf process self.old.store }
        ensures ssn { IfOk result (λ ssn. ssn ≡ last_of (peer_of process self.old) + 1) }
        ensures value { OnOk result (self.new ≡ puts_in process payload self.old) }
        ensures since { OnOk result (KeepsSince self.old self.new) }
        ensures acts { OnOk result (Acts self.old self.new) }
        ensures err { OnErr result (self.new ≡ self.old) }
    {
        // For the proof: this gives the limit of its length.
        let _len = payload.len();
        self.put_in(process, payload)
    }

    fn put_in(&mut self, process: u8, payload: Payload) -> Result<u64, AllocError>
        requires of { IsOf process self.old.store }
        requires short { length payload ≤ 256 }
        ensures ssn { IfOk result (λ ssn. ssn ≡ last_of (peer_of process self.old) + 1) }
        ensures ok { OnOk result (self.new ≡ puts_in process payload self.old) }
        ensures room { OnOk result (Fits (Change.Input process payload) self.old.store) }
        ensures err { OnErr result (self.new ≡ self.old) }
    {
        let ssn = self.store.peer(process).last() + 1;
        if ssn >= NUMBER_LIMIT {
            return Err(AllocError);
        }
        self.happen(Change::Input { process, payload })?;
        self.deliver(process, ssn);
        Ok(ssn)
    }

    /// Takes the first packet that waits to be sent, if there is one.
    pub fn take(&mut self) -> Option<NodePacket>
        ensures { Takes result self.old self.new }
    {
        self.out.pop()
    }

    /// Takes the first output that wasn't taken yet, if there is one. A refusal changes nothing.
    pub fn output(&mut self) -> Result<Option<Output>, AllocError>
        ensures output { IfOk result (λ o. o ≡ slice_get self.old.store.outputs 0) }
        ensures value { OnOk result (self.new ≡ hands_out self.old) }
        ensures since { OnOk result (KeepsSince self.old self.new) }
        ensures acts { OnOk result (Acts self.old self.new) }
        ensures err { OnErr result (self.new ≡ self.old) }
    {
        self.hand_out()
    }

    fn hand_out(&mut self) -> Result<Option<Output>, AllocError>
        ensures output { IfOk result (λ o. o ≡ slice_get self.old.store.outputs 0) }
        ensures ok { OnOk result (self.new ≡ hands_out self.old) }
        ensures err { OnErr result (self.new ≡ self.old) }
    {
        let output = self.store.first_output();
        if output.is_some() {
            self.happen(Change::Taken { outputs: 1 })?;
        }
        Ok(output)
    }

    /// Sends again what isn't answered: to each process the first messages without an RSN.
    pub fn tick(&mut self)
        ensures value { self.new ≡ ticked self.old }
        ensures since { KeepsSince self.old self.new }
        ensures acts { Acts self.old self.new }
    {
        self.send_again();
    }

    fn send_again(&mut self)
        ensures { self.new ≡ ticked self.old }
    {
        for before in 0..self.store.count() {
            self.resend(before + 1);
        }
    }

    /// Sends the first messages to a process that have no RSN again.
    fn resend(&mut self, process: u8)
        requires { IsOf process self.old.store }
        ensures { self.new ≡ resent process self.old }
    {
        let (first, last) = self.span(process);
        let mut left = self.tick;
        for before in first..last {
            if left == 0 {
                return;
            }
            if self.number_of(process, before + 1).is_none() {
                self.deliver(process, before + 1);
                left -= 1;
            }
        }
    }

    /// How many of the messages to a process were dropped, and how many there were in all.
    fn span(&self, process: u8) -> (u64, u64)
        requires { IsOf process self.now.store }
        ensures first { result.0 ≡ (peer_of process self.now).dropped }
        ensures last { result.1 ≡ last_of (peer_of process self.now) }
        ensures order { result.0 ≤ result.1 }
        ensures small { result.1 < NUMBER_LIMIT }
    {
        let peer = self.store.peer(process);
        (peer.dropped(), peer.last())
    }

    /// The RSN of a message that is kept, if it is known.
    fn number_of(&self, process: u8, ssn: u64) -> Option<u64>
        requires of { IsOf process self.now.store }
        requires kept { is_kept ssn (peer_of process self.now) ≡ true }
        ensures { result ≡ number_of ssn (peer_of process self.now) }
    {
        self.store.peer(process).number(ssn)
    }

    /// Sends a message that is kept.
    fn deliver(&mut self, process: u8, ssn: u64)
        requires of { IsOf process self.old.store }
        requires kept { is_kept ssn (peer_of process self.old) ≡ true }
        ensures { self.new ≡ delivers process ssn self.old }
    {
        let peer = self.store.peer(process);
        let payload = peer.payload(ssn);
        // For the proof: these give the limits of the numbers.
        let _last = peer.last();
        let _len = payload.len();
        self.put(
            process,
            Body::Delivery {
                incarnation: 1,
                ssn,
                payload,
            },
        );
    }

    /// Changes the store, and keeps the change for the host. A refusal changes nothing.
    pub(crate) fn happen(&mut self, change: Change) -> Result<(), AllocError>
        requires { Fits change self.old.store }
        ensures ok { OnOk result (self.new ≡ happens change self.old) }
        ensures err { OnErr result (self.new ≡ self.old) }
    {
        self.changes.reserve(1)?;
        self.store.apply(&change)?;
        self.changes.push_reserved(change);
        Ok(())
    }

    /// Puts a packet into the outbox.
    pub(crate) fn put(&mut self, to: u8, body: Body)
        requires { CanSay self.old to body }
        ensures { self.new ≡ posts to body self.old }
    {
        let packet = NodePacket {
            count: self.store.count(),
            from: 0,
            to,
            body,
        };
        self.out.push(packet);
    }
}
