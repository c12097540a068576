//! Why a command line was not carried out.

ghost use Rattle.std.specs.Prelude.{◌≡◌, ◌++◌, Some};
ghost use Rattle.image_commands.specs.Fault.{fault_of_code, fault_of_failure, fault_of_image, fault_of_object, fault_of_refusal, fault_of_text, fault_text, status_of, TellsText};
ghost use Rattle.image_commands.specs.declared.fault.Fault.TheVariants.{Memory};

use crate::files::Failure;
use crate::stream::Stream;
use assemble::AsmError;
use cli::{Usage, UsageRefusal};
use decode::DecodeError;
use elf::{ObjectError, ObjectFault};
use std::alloc::{AllocError, AllocFailed};
use std::fmt;
use verifier::{HeaderFault, ImageError};

/// What is said of a command line of `pack` that lacks an option, in the words in which `clap` says it.
pub const NO_STATE: &str = "error: the following required arguments were not provided:
  --state <N>

Usage: sblog pack --state <N> <CODE> <OUT>

For more information, try '--help'.
";

/// Why a command line was not carried out. It prints as its line on standard error, or as the text on usage.
#[derive(Debug, Drop)]
pub enum Fault {
    /// The words ask for nothing, or for help.
    Usage(Usage),
    /// An image's header, or the length of its file.
    Header(HeaderFault),
    /// An image's code breaks a rule of its encoding at this slot.
    Decode {
        rule: decode::EncodingRule,
        slot: usize,
    },
    /// An image's code breaks a rule of the verifier at this slot.
    Verify {
        rule: regtypes::Rule,
        slot: usize,
    },
    /// This line of an assembler text, counted from 1, breaks a rule.
    Assemble {
        rule: assemble::TextRule,
        line: usize,
    },
    /// An object file, or the function that is asked for.
    Object(ObjectFault),
    /// Nothing says how long the state of an image is.
    NoState,
    /// This line of a scenario, counted from 1, is the first faulty one; line 0 if there is no process.
    Scenario {
        line: usize,
    },
    Memory,
    /// A file or a stream could not be read or written.
    InputOutput,
}

impl Fault {
    /// The exit status, 2 to 6.
    pub fn status(&self) -> u8
        ensures { result ≡ status_of self.now }
    {
        match self {
            Fault::Usage(_) | Fault::NoState => 2,
            Fault::Header(_) | Fault::Decode { .. } | Fault::Verify { .. } => 3,
            Fault::Assemble { .. } | Fault::Object(_) => 3,
            Fault::Scenario { .. } => 4,
            Fault::Memory => 5,
            Fault::InputOutput => 6,
        }
    }

    /// Writes the fault to `err`. Answers the exit status: of the fault, or of the failed write.
    pub fn tell<E: Stream>(&self, err: &mut E) -> u8
        ensures { TellsText self.now (fault_text self.now) (E.failed err.new) (E.contents err.old) (E.contents err.new) result }
    {
        match err.print(self) {
            Ok(()) => self.status(),
            Err(e) => Fault::from(e).status(),
        }
    }

    /// The same, with hints below the fault.
    pub fn tell_with<E: Stream>(&self, hints: &str, err: &mut E) -> u8
        ensures { TellsText self.now (fault_text self.now ++ hints.now) (E.failed err.new) (E.contents err.old) (E.contents err.new) result }
    {
        match err.print(Told { fault: self, hints }) {
            Ok(()) => self.status(),
            Err(e) => Fault::from(e).status(),
        }
    }
}

/// A fault with hints below it.
#[derive(Clone, Copy, Debug)]
struct Told<'a> {
    fault: &'a Fault,
    hints: &'a str,
}

impl fmt::Display for Told<'_> {
    ghost output = { λ t. Some (fault_text t.fault.now ++ t.hints.now) };

    fn fmt<W: fmt::Write>(&self, f: &mut fmt::Formatter<W>) -> fmt::Result {
        let (fault, hints) = (self.fault, self.hints);
        write!(f, "{fault}{hints}")
    }
}

impl fmt::Display for Fault {
    ghost output = { λ f. Some (fault_text f) };

    fn fmt<W: fmt::Write>(&self, f: &mut fmt::Formatter<W>) -> fmt::Result {
        match self {
            Fault::Usage(usage) => f.write_str(usage.text.as_str()),
            Fault::Header(fault) => {
                let number = fault.number();
                writeln!(f, "load refused {number}")
            }
            Fault::Decode { rule, slot } => {
                let number = rule.number();
                writeln!(f, "decode refused {number} at slot {slot}")
            }
            Fault::Verify { rule, slot } => {
                let number = rule.number();
                writeln!(f, "verify refused V{number} at slot {slot}")
            }
            Fault::Assemble { rule, line } => {
                let number = rule.number();
                writeln!(f, "asm refused {number} at line {line}")
            }
            Fault::Object(fault) => match fault {
                ObjectFault::Reference { slot, .. } | ObjectFault::Call { slot } => {
                    let number = fault.number();
                    writeln!(f, "object refused {number} at slot {slot}")
                }
                _ => {
                    let number = fault.number();
                    writeln!(f, "object refused {number}")
                }
            },
            Fault::NoState => f.write_str(NO_STATE),
            Fault::Scenario { line } => writeln!(f, "scenario refused at line {line}"),
            Fault::Memory => writeln!(f, "memory"),
            Fault::InputOutput => writeln!(f, "input or output"),
        }
    }
}

impl From<AllocError> for Fault {
    ghost from_gives = { λ _ f. f ≡ Memory };

    fn from(_e: AllocError) -> Fault {
        Fault::Memory
    }
}

impl<T: Drop> From<AllocFailed<T>> for Fault {
    ghost from_gives = { λ _ f. f ≡ Memory };

    fn from(_e: AllocFailed<T>) -> Fault {
        Fault::Memory
    }
}

impl From<UsageRefusal> for Fault {
    ghost from_gives = { λ e f. f ≡ fault_of_refusal e };

    fn from(e: UsageRefusal) -> Fault {
        match e {
            UsageRefusal::Usage(usage) => Fault::Usage(usage),
            UsageRefusal::Memory => Fault::Memory,
        }
    }
}

impl From<Failure> for Fault {
    ghost from_gives = { λ e f. f ≡ fault_of_failure e };

    fn from(e: Failure) -> Fault {
        match e {
            Failure::Memory => Fault::Memory,
            Failure::InputOutput(_) => Fault::InputOutput,
        }
    }
}

impl From<ImageError> for Fault {
    ghost from_gives = { λ e f. f ≡ fault_of_image e };

    fn from(e: ImageError) -> Fault {
        match e {
            ImageError::Memory => Fault::Memory,
            ImageError::Header(fault) => Fault::Header(fault),
            ImageError::Decode { rule, slot } => Fault::Decode { rule, slot },
            ImageError::Verify { rule, slot } => Fault::Verify { rule, slot },
        }
    }
}

impl From<DecodeError> for Fault {
    ghost from_gives = { λ e f. f ≡ fault_of_code e };

    fn from(e: DecodeError) -> Fault {
        match e {
            DecodeError::Memory => Fault::Memory,
            DecodeError::Fault { rule, slot } => Fault::Decode { rule, slot },
        }
    }
}

impl From<ObjectError> for Fault {
    ghost from_gives = { λ e f. f ≡ fault_of_object e };

    fn from(e: ObjectError) -> Fault {
        match e {
            ObjectError::Memory => Fault::Memory,
            ObjectError::Fault(fault) => Fault::Object(fault),
        }
    }
}

impl From<AsmError> for Fault {
    ghost from_gives = { λ e f. f ≡ fault_of_text e };

    fn from(e: AsmError) -> Fault {
        match e {
            AsmError::Memory => Fault::Memory,
            AsmError::Fault { rule, line } => Fault::Assemble { rule, line },
        }
    }
}
