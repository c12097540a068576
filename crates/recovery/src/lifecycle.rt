//! The stages of a process, and the way from one to the next.

ghost use Rattle.std.specs.Prelude.{◌≡◌, true, false, IfOk, IfErr};
ghost use Rattle.recovery.specs.Transitions.{is_node, Recovers, Finishes, Begun, Returns, Passes, has_heard, has_run, is_held, IsHeld};

use crate::collection::Collecting;
use crate::moment::Cause;
use crate::replayed::Replayed;
use crate::replays::Replaying;
use crate::restoration::Restoring;
use node::Node;
use std::alloc::Global;

/// A process in its stage.
#[derive(Drop)]
pub enum Lifecycle {
    /// It is up.
    Up(Node),
    /// It asks its peers what their logs hold for it.
    Collecting(Collecting),
    /// It replays the messages that it keeps.
    Replaying(Replaying),
    /// Its replay is over, and memory was refused for the next stage.
    Replayed(Replayed),
    /// It asks its peers under which RSNs they have its messages.
    Restoring(Restoring),
    /// It is between two stages. This occurs only inside a call.
    Passing,
}

/// The process that couldn't go on to the next stage, and why.
#[derive(Drop)]
pub struct Stalled {
    pub lifecycle: Lifecycle,
    pub cause: Cause,
}

impl Lifecycle {
    /// Whether it is up.
    pub fn is_up(&self) -> bool
        ensures { result ≡ is_node self.now }
    {
        matches!(self, Lifecycle::Up(_))
    }

    /// Goes on as many stages as it can, unless memory is refused.
    pub fn passed(self, alloc: Global) -> Result<Lifecycle, Stalled>
        ensures passed { IfOk result (λ c. Passes self c × (is_held c ≡ false)) }
        ensures held { IfErr result (λ h. Passes self h.lifecycle × IsHeld h.cause h.lifecycle) }
    {
        let told = self.recovered(alloc)?;
        let ran = told.finished();
        let asks = ran.begun(alloc)?;
        Ok(asks.returned())
    }

    /// If all peers have told all, it replays what it keeps.
    fn recovered(self, alloc: Global) -> Result<Lifecycle, Stalled>
        ensures told { IfOk result (λ c. Recovers self c × (has_heard c ≡ false)) }
        ensures held { IfErr result (λ h. (h.lifecycle ≡ self) × (has_heard self ≡ true) × IsHeld h.cause self) }
    {
        match self {
            Lifecycle::Collecting(process) => {
                if !process.has_all() {
                    return Ok(Lifecycle::Collecting(process));
                }
                match process.recover(alloc) {
                    Ok(process) => Ok(Lifecycle::Replaying(process)),
                    Err(refused) => Err(Stalled {
                        lifecycle: Lifecycle::Collecting(refused.collecting),
                        cause: refused.cause,
                    }),
                }
            }
            other => Ok(other),
        }
    }

    /// If nothing is left to replay, its replay is over.
    fn finished(self) -> Lifecycle
        ensures { Finishes self result }
    {
        match self {
            Lifecycle::Replaying(process) => {
                if !process.is_over() {
                    return Lifecycle::Replaying(process);
                }
                Lifecycle::Replayed(process.finish())
            }
            other => other,
        }
    }

    /// If its replay is over, it asks its peers for its RSNs.
    fn begun(self, alloc: Global) -> Result<Lifecycle, Stalled>
        ensures begun { IfOk result (λ c. Begun self c × (has_run c ≡ false)) }
        ensures held { IfErr result (λ h. (h.lifecycle ≡ self) × (has_run self ≡ true) × IsHeld h.cause self) }
    {
        match self {
            Lifecycle::Replayed(process) => match Restoring::begin(alloc, process) {
                Ok(process) => Ok(Lifecycle::Restoring(process)),
                Err(process) => Err(Stalled {
                    lifecycle: Lifecycle::Replayed(process),
                    cause: Cause::Memory,
                }),
            },
            other => Ok(other),
        }
    }

    /// If all peers have answered, it is up, and sends what it released.
    fn returned(self) -> Lifecycle
        ensures { Returns self result }
    {
        match self {
            Lifecycle::Restoring(process) => {
                if !process.is_up() {
                    return Lifecycle::Restoring(process);
                }
                let mut node = process.into_node();
                node.tick();
                Lifecycle::Up(node)
            }
            other => other,
        }
    }
}
