//! Why a function did nothing.

use c_handles::Coded;
use std::alloc::AllocError;

/// Why a function did nothing, by number.
#[derive(Clone, Copy)]
pub enum GatewayFault {
    /// 15: memory ran out.
    Memory,
    /// 16: the handle is closed; or, when a function opens one, it is open.
    Handle,
    /// 18: a payload has more than 256 bytes.
    Payload,
    /// 19: the buffer is too short.
    Room,
    /// 20: there is none, such as no packet that waits.
    Absent,
    /// 21: the bytes are refused.
    Bytes,
    /// 22: not now, as something waits to be sent or to be made durable.
    Early,
    /// 23: a limit or a number of a process is out of range.
    Range,
}

impl Coded for GatewayFault {
    ghost use Rattle.c_cluster.specs.Gateways.Answers.{fault_number};

    ghost number_of = { fault_number };

    fn number(&self) -> u32 {
        match *self {
            GatewayFault::Memory => 15,
            GatewayFault::Handle => 16,
            GatewayFault::Payload => 18,
            GatewayFault::Room => 19,
            GatewayFault::Absent => 20,
            GatewayFault::Bytes => 21,
            GatewayFault::Early => 22,
            GatewayFault::Range => 23,
        }
    }
}

impl From<AllocError> for GatewayFault {
    ghost use Rattle.std.specs.Prelude.{◌≡◌};
    ghost use Rattle.c_cluster.specs.declared.gateways.fault.GatewayFault.TheVariants.{Memory};

    ghost from_gives = { λ _ e. e ≡ Memory };

    fn from(_e: AllocError) -> GatewayFault {
        GatewayFault::Memory
    }
}
