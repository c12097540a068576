//! The kinds of packets.

/// The kind of a packet, without its fields.
#[derive(Clone, Copy, Debug, PartialEq, Eq)]
pub enum PacketKind {
    Delivery = 1,
    Number = 2,
    Acknowledgement = 3,
    Ask = 4,
    Told = 5,
    Resume = 6,
    Restored = 7,
    Saved = 8,
}

impl PacketKind {
    ghost use Rattle.std.specs.Prelude.{◌≡◌};
    ghost use Rattle.packets.specs.Packet.{kind_number, kind_at};

    /// Its byte in a packet, 1 to 8.
    pub fn number(self) -> u8
        ensures { result ≡ kind_number self }
    {
        self as u8
    }

    /// The kind with this byte, if there is one.
    pub fn of(number: u8) -> Option<PacketKind>
        ensures { result ≡ kind_at number }
    {
        match number {
            1 => Some(PacketKind::Delivery),
            2 => Some(PacketKind::Number),
            3 => Some(PacketKind::Acknowledgement),
            4 => Some(PacketKind::Ask),
            5 => Some(PacketKind::Told),
            6 => Some(PacketKind::Resume),
            7 => Some(PacketKind::Restored),
            8 => Some(PacketKind::Saved),
            _ => None,
        }
    }
}
