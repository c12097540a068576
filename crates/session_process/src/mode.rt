//! Which part of a recovery a process is in.

ghost use Rattle.std.specs.Prelude.{◌≡◌, ◌<◌, false, slice_index_or, slice_set, replicate};
ghost use Rattle.session_process.specs.Mode.{is_live, is_lost, is_replayed, next_job, has_no_peer};

use limits::PARTIES;
use replay::Plan;
use world::Message;

/// The phase of a process, without its open job.
#[derive(Drop)]
pub enum Mode {
    /// Up: it never crashed, or has come back.
    Live,
    /// It crashed.
    Down,
    /// It receives again what checkpoint and logs kept. `alone`: it came back alone, whatever the
    /// others did.
    Replaying { plan: Plan, alone: bool },
    /// It restores the RSNs of its messages to these peers, of which at least one is left.
    Resync(Peers),
}

impl Mode {
    /// Whether the process is up.
    pub fn is_live(&self) -> bool
        ensures { result ≡ is_live self.now }
    {
        match self {
            Mode::Live => true,
            Mode::Down => false,
            Mode::Replaying { .. } => false,
            Mode::Resync(_) => false,
        }
    }

    /// The message that is to be replayed next.
    pub fn next_job(&self) -> Option<Message>
        ensures { result ≡ next_job self.now }
    {
        match self {
            Mode::Replaying { plan, .. } => plan.next_job().map(|next| next.1),
            _ => None,
        }
    }

    /// If the process has replayed all of its plan: whether it came back alone.
    pub fn is_replayed(&self) -> Option<bool>
        ensures { result ≡ is_replayed self.now }
    {
        match self {
            Mode::Replaying { plan, alone } if plan.next_job().is_none() => Some(*alone),
            _ => None,
        }
    }

    /// Whether it is down.
    pub fn is_lost(&self) -> bool
        ensures { result ≡ is_lost self.now }
    {
        match self {
            Mode::Live => false,
            Mode::Down => true,
            Mode::Replaying { .. } => false,
            Mode::Resync(_) => false,
        }
    }
}

/// Processes by number: whether each is left to do.
#[derive(Clone, Copy, PartialEq, Eq, Debug)]
pub struct Peers {
    pub todo: [bool; PARTIES],
}

impl Peers {
    /// No peer.
    pub fn none() -> Peers
        ensures { result.todo ≡ replicate PARTIES false }
    {
        Peers {
            todo: [false; PARTIES],
        }
    }

    /// Whether this peer is left.
    pub fn has(&self, r: u8) -> bool
        ensures { result ≡ slice_index_or self.now.todo r false }
    {
        (r as usize) < self.todo.len() && self.todo[r as usize]
    }

    /// Whether no peer is left.
    pub fn is_empty(&self) -> bool
        ensures { result ≡ has_no_peer self.now }
    {
        self.todo.iter().all(|todo| !*todo)
    }

    /// Sets whether this peer is left.
    pub fn set(&mut self, r: u8, todo: bool)
        requires { r < PARTIES }
        ensures { self.new.todo ≡ slice_set self.old.todo r todo }
    {
        self.todo[r as usize] = todo;
    }
}
