//! The results of BPF operations on registers of 64 bits (RFC 9669 sections 4 and 5).
//!
//! Each function computes with the machine's operators, and promises the result that `specs/Operations.antt` defines
//! over whole numbers in the standard's words. Every input has a result, also a division by zero, the least number
//! divided by -1 and a shift count beyond the width. No function takes memory. `laws` proves that the definitions are
//! what the standard says, for example that DIV is the quotient rounded down and that AND goes bit by bit.
//!
//! ```
//! // an addition of 32 bits wraps, and leaves no upper half
//! let sum = alu(AluOp::Add, Width::W32, 0xffff_ffff_ffff_ffff, word_of_imm(1));
//! assert_eq!(rt; sum, 0);
//! ```
#![tactic(auto)]

mod arithmetic;
mod byte_swap;
mod condition;
mod double;
mod extension;
mod laws;
mod word;

pub use arithmetic::{alu, negated};
pub use byte_swap::reordered;
pub use condition::holds;
pub use extension::{extended, sign_extended, word_of_imm};
pub use laws::{
    arsh_rounds_down, differences_undo_sums, division_is_the_quotient, jset_is_a_common_bit,
    results_are_words, results_by_bits, sign_extension_copies_the_sign, signed_division_truncates,
    signed_readings, swaps_reverse_bytes,
};
