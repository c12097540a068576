//! What a worker tells of its jobs.

/// A worker calls it twice for each job that it takes, both times without the lock. A job is named
/// by its serial number, from 1, in the order of their starts.
pub trait Turnstile: Sync {
    /// The job was taken, and is not run yet.
    fn between(&self, serial: u32);

    /// The job's result was accepted.
    fn committed(&self, serial: u32);
}

/// A turnstile that does nothing.
#[derive(Clone, Copy, PartialEq, Eq, Debug)]
pub struct Open;

impl Turnstile for Open {
    fn between(&self, _serial: u32) {}

    fn committed(&self, _serial: u32) {}
}
