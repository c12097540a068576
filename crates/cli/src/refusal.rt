//! Why a command line is refused.

ghost use Rattle.std.specs.Prelude.{◌≡◌, ◌≢◌, IfOk, [], string_bytes};
ghost use Rattle.cli.specs.Asks.{own_input_text};
ghost use Rattle.cli.specs.declared.refusal.UsageRefusal.TheVariants.{Memory};

use clap::error::ErrorKind;
use std::alloc::{AllocError, Global};
use thiserror::Error;

/// A command line that asks for nothing, or for help.
#[derive(Debug, Drop, Error)]
#[error("{text}")]
pub struct Usage {
    pub kind: ErrorKind,
    /// What to show: one or more whole lines.
    pub text: String,
}

impl Usage {
    /// The usage of words that are not UTF-8.
    pub fn not_utf8(alloc: Global) -> Result<Usage, AllocError>
        ensures { IfOk result (λ u. string_bytes u.text ≢ []) }
    {
        let text = String::from_str(alloc, "error: an argument is not UTF-8\n")?;
        Ok(Usage {
            kind: ErrorKind::ValueValidation,
            text,
        })
    }

    /// The usage of a command whose OUT is a file that it reads.
    pub fn own_input(alloc: Global) -> Result<Usage, AllocError>
        ensures { IfOk result (λ u. string_bytes u.text ≡ own_input_text) }
    {
        let text = String::from_str(alloc, "error: OUT is a file that is read\n")?;
        Ok(Usage {
            kind: ErrorKind::ValueValidation,
            text,
        })
    }
}

/// Why a command line is refused.
#[derive(Debug, Drop, Error)]
pub enum UsageRefusal {
    #[error("{0}")]
    Usage(Usage),
    /// Memory ran out.
    #[error("memory")]
    Memory,
}

impl From<AllocError> for UsageRefusal {
    ghost from_gives = { λ _ e. e ≡ Memory };

    fn from(_e: AllocError) -> UsageRefusal {
        UsageRefusal::Memory
    }
}
