//! The header of an image file.

ghost use Rattle.std.specs.Prelude.{◌≡◌, MatchOption, ◌≤◌, ◌++◌, length, IfOk, IfErr};
ghost use Rattle.verifier.specs.ImageFile.{IsHeaderFault, IsOther, IsTaken, magic};
ghost use Rattle.verifier.specs.Inside.Header.{HasHeader, IsSound, header_bytes};

use crate::fault::HeaderFault;
use crate::file_form::FileForm;
use byteorder::{ByteOrder, LittleEndian};
use limits::{SLOTS, STATE_BYTES};

/// The number of bytes of a header, and of a slot.
pub const HEADER: usize = 8;

/// The first four bytes of a file of form 1.
const MAGIC_1: [u8; 4] = [0x53, 0x42, 0x49, 0x31];

/// The first four bytes of a file of form 2.
const MAGIC_2: [u8; 4] = [0x53, 0x42, 0x49, 0x32];

/// The first four bytes of a file of form 3.
const MAGIC_3: [u8; 4] = [0x53, 0x42, 0x49, 0x33];

/// The forms that a reader takes.
#[derive(Clone, Copy, Debug, PartialEq, Eq)]
pub enum Forms {
    /// Forms 1 and 2.
    Flat,
    /// Form 3.
    Span,
    /// All three.
    Any,
}

impl Forms {
    ghost use Rattle.std.specs.Prelude.{◌↔◌, IsTrue};
    ghost use Rattle.verifier.specs.ImageFile.{IsTaken};

    /// Whether a form is one of them.
    fn takes(self, form: FileForm) -> bool
        ensures { IsTrue result ↔ IsTaken self form }
    {
        match self {
            Forms::Flat => form != FileForm::Sbi3,
            Forms::Span => form == FileForm::Sbi3,
            Forms::Any => true,
        }
    }
}

/// The fields of a header.
#[derive(Clone, Copy, Debug, PartialEq, Eq)]
pub struct FileHeader {
    /// The first four bytes, which tell the form.
    pub magic: [u8; 4],
    /// How many bytes the state has.
    pub state_len: u16,
    /// How many slots the code has.
    pub slots: u16,
}

/// The fields of the first eight bytes, without a check, and the bytes after them. There have to be at least eight.
pub fn header_at(bytes: &[u8]) -> (FileHeader, &[u8])
    requires { 8 ≤ length bytes.now }
    ensures { HasHeader result.0 result.1.now bytes.now }
{
    let (front, rest) = bytes.split_at(HEADER);
    let header = FileHeader {
        magic: [front[0], front[1], front[2], front[3]],
        state_len: LittleEndian::read_u16(&front[4..6]),
        slots: LittleEndian::read_u16(&front[6..8]),
    };
    (header, rest)
}

/// The form of files that begin with these bytes, if it is one of those that are taken.
fn form_of(begins: [u8; 4], forms: Forms) -> Option<FileForm>
    ensures { MatchOption result (IsOther forms begins) (λ form. (begins ≡ magic form) × IsTaken forms form) }
{
    let form = if begins == MAGIC_1 {
        FileForm::Sbi1
    } else if begins == MAGIC_2 {
        FileForm::Sbi2
    } else if begins == MAGIC_3 {
        FileForm::Sbi3
    } else {
        return None;
    };
    if forms.takes(form) { Some(form) } else { None }
}

/// The header of a file, its form and its code, if the header has no fault.
pub fn read_header(bytes: &[u8], forms: Forms) -> Result<(FileHeader, FileForm, &[u8]), HeaderFault>
    ensures found { IfOk result (λ x. HasHeader x.0 x.2.now bytes.now) }
    ensures sound { IfOk result (λ x. IsSound x.1 x.0 x.2.now) }
    ensures taken { IfOk result (λ x. IsTaken forms x.1) }
    ensures refused { IfErr result (IsHeaderFault forms bytes.now) }
{
    if bytes.len() < HEADER {
        return Err(HeaderFault::TooShort);
    }
    let (header, code) = header_at(bytes);
    let form = match form_of(header.magic, forms) {
        Some(form) => form,
        None => return Err(HeaderFault::Magic),
    };
    if header.state_len > STATE_BYTES as u16 {
        return Err(HeaderFault::StateLength);
    }
    if header.slots == 0 || header.slots > SLOTS as u16 {
        return Err(HeaderFault::SlotCount);
    }
    if code.len() != HEADER * header.slots as usize {
        return Err(HeaderFault::FileLength);
    }
    Ok((header, form, code))
}

/// The eight bytes of a header.
pub fn write_header(form: FileForm, state_len: u16, slots: u16) -> [u8; 8]
    ensures { result ≡ header_bytes (record { magic = magic form; state_len = state_len; slots = slots }) }
{
    let mut bytes = [0x53, 0x42, 0x49, 0x30 + form.number(), 0, 0, 0, 0];
    LittleEndian::write_u16(&mut bytes[4..6], state_len);
    LittleEndian::write_u16(&mut bytes[6..8], slots);
    bytes
}
