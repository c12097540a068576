//! Why a function did nothing.

use c_handles::Coded;
use world::Refusal;

/// Why a function did nothing, by number.
#[derive(Clone, Copy)]
pub enum SessionFault {
    /// 1 to 15: the session refused the call.
    Session(Refusal),
    /// 16: the handle is closed; or if one is to be opened, it is open.
    Handle,
    /// 17: a file is no image file, or the files aren't as long as their lengths say.
    File,
    /// 18: a payload has more than 256 bytes.
    Payload,
    /// 19: the buffer is too short.
    Room,
    /// 20: nothing has this number.
    Absent,
}

impl Coded for SessionFault {
    ghost use Rattle.c_sessions.specs.Session.{fault_number};

    ghost number_of = { fault_number };

    fn number(&self) -> u32 {
        match *self {
            SessionFault::Session(refusal) => refusal.number() as u32,
            SessionFault::Handle => 16,
            SessionFault::File => 17,
            SessionFault::Payload => 18,
            SessionFault::Room => 19,
            SessionFault::Absent => 20,
        }
    }
}
