//! What a process is doing, by name.

/// The name of a phase.
#[derive(Clone, Copy, PartialEq, Eq, Debug)]
pub enum PhaseName {
    Up,
    /// Up, with an open job.
    Busy,
    Down,
    Replaying,
    Resync,
}
