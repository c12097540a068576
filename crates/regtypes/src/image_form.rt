//! The two forms of an image.

/// What a handler is told of its message. `Sbi1`: a message has 64 bytes. `Sbi2`: a message has 0 to 256 bytes, r3 is
/// its length at the entry, and there are two more helpers.
#[derive(Clone, Copy, Debug, PartialEq, Eq)]
pub enum ImageForm {
    Sbi1,
    Sbi2,
}

impl ImageForm {
    ghost use Rattle.std.specs.Prelude.{◌≡◌};
    ghost use Rattle.regtypes.specs.Frame.{form_number};

    /// Its number, 1 or 2.
    pub fn number(self) -> u8
        ensures { result ≡ form_number self }
    {
        match self {
            ImageForm::Sbi1 => 1,
            ImageForm::Sbi2 => 2,
        }
    }
}
