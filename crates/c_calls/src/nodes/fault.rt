//! Why a function did nothing.

ghost use Rattle.std.specs.Prelude.{◌≡◌, IfErr, IfOk};
ghost use Rattle.c_calls.specs.Nodes.Answers.{fault_number, written};

use c_handles::{Coded, code};

/// Why a function did nothing, by number.
#[derive(Drop)]
pub enum NodeFault {
    /// 15: memory ran out.
    Memory,
    /// 16: the handle is closed; or, when a function opens one, it is open.
    Handle,
    /// 17: the file is not that of an image.
    Image,
    /// 19: the buffer is too short.
    Room,
    /// 20: there is none, such as no packet that waits.
    Absent,
    /// 21: the bytes are refused, with a fault of this number.
    Bytes(u8),
    /// 22: the call can't be made now.
    Unready,
    /// 23: a limit, the number of a process or an incarnation is out of range, or there are more
    /// messages than a process takes.
    Limit,
    /// 24: no call of the handler leaves this array and record.
    Left,
}

impl Coded for NodeFault {
    ghost use Rattle.c_calls.specs.Nodes.Answers.{fault_number};

    ghost number_of = { fault_number };

    fn number(&self) -> u32 {
        match *self {
            NodeFault::Memory => 15,
            NodeFault::Handle => 16,
            NodeFault::Image => 17,
            NodeFault::Room => 19,
            NodeFault::Absent => 20,
            NodeFault::Bytes(_) => 21,
            NodeFault::Unready => 22,
            NodeFault::Limit => 23,
            NodeFault::Left => 24,
        }
    }
}

/// The code of a result; if bytes were refused, writes the number of their fault.
pub fn code_of_bytes(done: Result<(), NodeFault>, number: &mut u32) -> u32
    ensures done { IfOk done (λ _. (result ≡ 0) × (number.new ≡ number.old)) }
    ensures fault { IfErr done (λ why. (result ≡ fault_number why) × (number.new ≡ written why number.old)) }
{
    if let Err(NodeFault::Bytes(fault)) = &done {
        *number = u32::from(*fault);
    }
    code(done)
}
