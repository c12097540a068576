//! What is known of a register or of a word of the stack.

use crate::span::Span;
use regtypes::Region;

/// The distances from a region's first byte, from `lo` to `hi` inclusive.
#[derive(Clone, Copy, Debug, PartialEq, Eq)]
pub struct Reach {
    pub lo: i16,
    pub hi: i16,
}

/// Nothing is known; or it is a number of this span; or it is a place of this region with one of these distances.
#[derive(Clone, Copy, Debug, PartialEq, Eq)]
pub enum SpanKind {
    Unset,
    Num(Span),
    Place(Region, Reach),
}
