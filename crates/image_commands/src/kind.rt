//! What a file looks like.

/// What a file looks like by its first bytes.
#[derive(Clone, Copy, Debug, PartialEq, Eq)]
pub enum FileKind {
    /// An image file of form 1.
    Sbi1,
    /// An image file of form 2.
    Sbi2,
    /// An image file of form 3.
    Sbi3,
    /// An ELF file, as a compiler makes it.
    Object,
    Other,
}

pub fn kind_of(bytes: &[u8]) -> FileKind {
    if bytes.starts_with(b"SBI1") {
        FileKind::Sbi1
    } else if bytes.starts_with(b"SBI2") {
        FileKind::Sbi2
    } else if bytes.starts_with(b"SBI3") {
        FileKind::Sbi3
    } else if bytes.starts_with(b"\x7fELF") {
        FileKind::Object
    } else {
        FileKind::Other
    }
}
