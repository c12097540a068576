//! How a call begins.

/// Which registers the code's beginning sets.
#[derive(Clone, Copy)]
pub enum Opening {
    /// Only r3, the message's length: forms 1 and 2 read no place from a register.
    Bare,
    /// Also r1 and r2, with the positions of message and state in the array of form 3.
    Placed,
}
