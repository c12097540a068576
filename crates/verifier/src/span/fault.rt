//! Why code is refused.

use thiserror::Error;

/// Why code is refused.
#[derive(Clone, Copy, Debug, PartialEq, Eq, Error)]
pub enum SpanVerifyError {
    /// Memory ran out.
    #[error("out of memory")]
    Memory,
    /// The code breaks a rule.
    #[error("slot {slot} breaks {rule:?}: {rule}")]
    Fault {
        /// The least rule that the slot breaks.
        rule: regtypes::Rule,
        /// The first slot that breaks a rule, counted from 0.
        slot: usize,
    },
}
