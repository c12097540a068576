//! What is left to do in a session.

ghost use Rattle.std.specs.Prelude.{◌≡◌, ◌≢◌, ◌<◌, ◌≤◌, ℕ, false, length, IfNone, IfSome};
ghost use Rattle.limits.specs.declared.TheConstants.{PROCESSES};
ghost use Rattle.world.specs.Phases.{is_up, name_of};
ghost use Rattle.sessions.specs.Driver.{IsDone};
ghost use Rattle.sessions.specs.Journal.{world_at};
ghost use Rattle.runner.specs.Rest.{AreNoneIn, AreOthersUp, Leaves};

use hints::Rest;
use sessions::Service;
use world::PhaseName;

/// What is left to do in a session.
pub fn rest_of(session: &Service) -> Rest
    ensures { Leaves session.now result }
{
    if let Some(process) = first_in(session, PhaseName::Down) {
        return match other_not_up(session, process) {
            Some(other) => Rest::DownBeside { process, other },
            None => Rest::Down { process },
        };
    }
    if let Some(call) = session.pick() {
        return Rest::Next { call };
    }
    if let Some(process) = first_in(session, PhaseName::Busy) {
        return Rest::Held { process };
    }
    match session.outstanding() {
        Some(call) => Rest::Full { call },
        None => open_replay(session),
    }
}

/// The first process whose replay has an open job, if no call is left: a process that replays without one could be called.
fn open_replay(session: &Service) -> Rest
    requires done { IsDone session.now }
    requires quiet { AreNoneIn session.now PhaseName.Busy }
    ensures { Leaves session.now result }
{
    match first_in(session, PhaseName::Replaying) {
        Some(process) => Rest::Held { process },
        None => Rest::Nothing,
    }
}

/// The first process in a phase.
fn first_in(session: &Service, phase: PhaseName) -> Option<u8>
    ensures some { IfSome result (λ p. name_of ((world_at session.now).phase p) ≡ phase) }
    ensures inside { IfSome result (λ p. (0 < p) × (p ≤ length session.now.images)) }
    ensures few { length session.now.images ≤ PROCESSES }
    ensures none { IfNone result (AreNoneIn session.now phase) }
{
    for process in 1..session.count() + 1 {
        if session.phase(process) == phase {
            return Some(process);
        }
    }
    None
}

/// The first process but this one that isn't up.
pub(crate) fn other_not_up(session: &Service, but: u8) -> Option<u8>
    ensures some { IfSome result (λ p. (p ≢ but) × (is_up ((world_at session.now).phase p) ≡ false)) }
    ensures inside { IfSome result (λ p. (0 < p) × (p ≤ length session.now.images)) }
    ensures none { IfNone result (AreOthersUp session.now but) }
{
    for process in 1..session.count() + 1 {
        let is_up = matches!(session.phase(process), PhaseName::Up | PhaseName::Busy);
        if process != but && !is_up {
            return Some(process);
        }
    }
    None
}
