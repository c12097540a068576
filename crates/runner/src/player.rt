//! The state of a run.

ghost use Rattle.std.specs.Prelude.{◌≡◌, length};
ghost use Rattle.limits.specs.declared.TheConstants.{PARTIES};

use sessions::{Job, Service};

/// A session, the jobs that are open, and how many messages the outside handed in.
#[derive(Drop)]
pub(crate) struct Player {
    pub(crate) session: Service,
    pub(crate) held: Vec<Option<Job>>,
    pub(crate) inputs: u32,
    ghost places: { length held.items ≡ PARTIES },
}
