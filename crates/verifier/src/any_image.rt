//! Images of any form.

use crate::file_form::FileForm;
use crate::image::Image;
use crate::span::image::SpanImage;
use decode::Insn;

/// An image of one of the three forms.
#[derive(Drop)]
pub enum AnyImage {
    /// An image of form 1 or 2.
    Flat(Image),
    /// An image of form 3.
    Span(SpanImage),
}

impl AnyImage {
    ghost use Rattle.std.specs.Prelude.{◌≡◌, ◌≤◌, length};
    ghost use Rattle.limits.specs.declared.TheConstants.{STATE_BYTES};
    ghost use Rattle.verifier.specs.AnyImage.{code_of, form_of, state_of};

    /// Its form.
    pub fn form(&self) -> FileForm
        ensures { result ≡ form_of self.now }
    {
        match self {
            AnyImage::Flat(image) => FileForm::from(image.form()),
            AnyImage::Span(_) => FileForm::Sbi3,
        }
    }

    /// Its instructions.
    pub fn code(&self) -> &[Insn]
        ensures { result.now ≡ code_of self.now }
    {
        match self {
            AnyImage::Flat(image) => image.code(),
            AnyImage::Span(image) => image.code(),
        }
    }

    /// The number of instructions. A wide one counts once.
    pub fn count(&self) -> usize
        ensures { result ≡ length (code_of self.now) }
    {
        match self {
            AnyImage::Flat(image) => image.count(),
            AnyImage::Span(image) => image.count(),
        }
    }

    /// How many bytes its state has, 0 to 1,024.
    pub fn state_len(&self) -> u16
        ensures value { result ≡ state_of self.now }
        ensures bound { result ≤ STATE_BYTES }
    {
        match self {
            AnyImage::Flat(image) => image.state_len(),
            AnyImage::Span(image) => image.state_len(),
        }
    }
}
