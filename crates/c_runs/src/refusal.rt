//! Why a file or a call is refused.

ghost use Rattle.std.specs.Prelude.{◌≡◌};
ghost use Rattle.c_runs.specs.Exports.{refused_rule, refused_slot};

use c_handles::Coded;
use verifier::ImageError;

/// Why a file or a call is refused, by number.
#[derive(Drop)]
pub enum ImageRefusal {
    /// 1 to 4: memory ran out, or a fault of the file's header, of its code, or by the verifier's
    /// rules.
    Image(ImageError),
    /// 5: the state isn't as long as the file says.
    State,
    /// 6: the messages are not a multiple of 64 bytes.
    Message,
    /// 7: the numbers of the processes are out of range.
    Who,
    /// 8: the buffer for the answer is too short.
    Room,
    /// 9: the file is of form 2, whose messages and payloads have lengths.
    Form,
    /// 10: the handle is null.
    Handle,
    /// 12: no call of form 1 leaves such a record.
    Record,
}

impl Coded for ImageRefusal {
    ghost use Rattle.c_runs.specs.Exports.{refusal_number};

    ghost number_of = { refusal_number };

    fn number(&self) -> u32 {
        match self {
            ImageRefusal::Image(ImageError::Memory) => 1,
            ImageRefusal::Image(ImageError::Header(_)) => 2,
            ImageRefusal::Image(ImageError::Decode { .. }) => 3,
            ImageRefusal::Image(ImageError::Verify { .. }) => 4,
            ImageRefusal::State => 5,
            ImageRefusal::Message => 6,
            ImageRefusal::Who => 7,
            ImageRefusal::Room => 8,
            ImageRefusal::Form => 9,
            ImageRefusal::Handle => 10,
            ImageRefusal::Record => 12,
        }
    }
}

/// The number of the broken rule, 0 if memory ran out.
pub fn refused_rule(error: &ImageError) -> u8
    ensures { result ≡ refused_rule error.now }
{
    match *error {
        ImageError::Memory => 0,
        ImageError::Header(fault) => fault.number(),
        ImageError::Decode { rule, .. } => rule.number(),
        ImageError::Verify { rule, .. } => rule.number(),
    }
}

/// The slot that breaks it, 0 if no slot does.
pub fn refused_slot(error: &ImageError) -> usize
    ensures { result ≡ refused_slot error.now }
{
    match *error {
        ImageError::Memory => 0,
        ImageError::Header(_) => 0,
        ImageError::Decode { slot, .. } => slot,
        ImageError::Verify { slot, .. } => slot,
    }
}
