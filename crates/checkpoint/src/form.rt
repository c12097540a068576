//! The forms of a checkpoint.

/// A form. The last digit of its magic tells which.
#[derive(Clone, Copy, Debug, PartialEq, Eq)]
pub enum CheckpointForm {
    /// `SBC1`: each payload has 64 bytes.
    First,
    /// `SBC2`: each payload comes after its length, two bytes.
    Second,
}

impl CheckpointForm {
    ghost use Rattle.std.specs.Prelude.{◌≡◌};
    ghost use Rattle.checkpoint.specs.Format.{magic};

    /// The first four bytes of a checkpoint of this form.
    pub fn magic(self) -> [u8; 4]
        ensures { result ≡ magic self }
    {
        match self {
            CheckpointForm::First => [0x53, 0x42, 0x43, 0x31],
            CheckpointForm::Second => [0x53, 0x42, 0x43, 0x32],
        }
    }
}
