//! Numbers in text.

ghost use Rattle.std.specs.Prelude.{◌≡◌, ◌↔◌, ◌<◌, ◌^◌, IsTrue, MatchOption, FitsSigned};
ghost use Rattle.std.specs.Int.{w16, w32};
ghost use Rattle.std.specs.Str.{IsUtf8};
ghost use Rattle.assemble.specs.Number.{number, numeral, with_sign};
ghost use Rattle.assemble.specs.Inside.Reads.{Reads};
ghost use Rattle.std.specs.Char.{is_ascii_digit};
ghost use Rattle.std.specs.List.{list_all};
ghost use Rattle.assemble.specs.Inside.Spelled.{IsPositive, IsUnsigned, IsNumber, IsSigned};

use crate::fault::TextFault;

/// Whether the text is digits only.
fn are_digits(text: &[u8]) -> bool
    ensures { result ≡ list_all is_ascii_digit text.now }
{
    text.iter().all(|byte| byte.is_ascii_digit())
}

/// Whether the text is digits, the first of them not 0.
#[tactic(auto, using(crate::proofs::Digits::all_digits, crate::proofs::Digits::digits_all))]
fn is_positive(text: &[u8]) -> bool
    ensures { IsTrue result ↔ IsPositive text.now }
{
    if text.is_empty() || text[0] == b'0' {
        return false;
    }
    are_digits(text)
}

/// Whether the text is 0, or digits of which the first is not 0.
fn is_unsigned(text: &[u8]) -> bool
    ensures { IsTrue result ↔ IsUnsigned text.now }
{
    matches!(text, [b'0']) || is_positive(text)
}

/// Whether the text is an unsigned number, or a minus and digits of which the first is not 0.
fn is_number(text: &[u8]) -> bool
    ensures { IsTrue result ↔ IsNumber text.now }
{
    match text {
        [b'-', digits @ ..] => is_positive(digits),
        _ => is_unsigned(text),
    }
}

/// Whether the text is a plus and an unsigned number, or a minus and digits of which the first is not 0.
fn is_signed(text: &[u8]) -> bool
    ensures { IsTrue result ↔ IsSigned text.now }
{
    match text {
        [b'+', digits @ ..] => is_unsigned(digits),
        [b'-', digits @ ..] => is_positive(digits),
        _ => false,
    }
}

/// The bytes as text, if they are UTF-8.
fn text_of(bytes: &[u8]) -> Option<&str>
    ensures { MatchOption result (¬ IsUtf8 bytes.now) (λ s. s.now ≡ bytes.now) }
{
    str::from_utf8(bytes).ok()
}

/// A number of 32 bits.
pub fn number_of(bytes: &[u8]) -> Result<i32, TextFault>
    ensures { Reads (λ z. bytes.now ≡ number z) (λ z. FitsSigned w32 z) result }
{
    if !is_number(bytes) {
        return Err(TextFault::Shape);
    }
    let Some(text) = text_of(bytes) else {
        return Err(TextFault::Shape);
    };
    match text.parse() {
        Ok(number) => Ok(number),
        Err(_) => Err(TextFault::Range),
    }
}

/// A number of 32 bits with its sign.
pub fn distance_of(bytes: &[u8]) -> Result<i32, TextFault>
    ensures { Reads (λ z. bytes.now ≡ with_sign z) (λ z. FitsSigned w32 z) result }
{
    if !is_signed(bytes) {
        return Err(TextFault::Shape);
    }
    let Some(text) = text_of(bytes) else {
        return Err(TextFault::Shape);
    };
    match text.parse() {
        Ok(number) => Ok(number),
        Err(_) => Err(TextFault::Range),
    }
}

/// A number of 16 bits with its sign.
pub fn offset_of(bytes: &[u8]) -> Result<i16, TextFault>
    ensures { Reads (λ z. bytes.now ≡ with_sign z) (λ z. FitsSigned w16 z) result }
{
    let distance = distance_of(bytes)?;
    match i16::try_from(distance) {
        Ok(offset) => Ok(offset),
        Err(_) => Err(TextFault::Range),
    }
}

/// A number of 64 bits, without a sign.
pub fn value_of(bytes: &[u8]) -> Result<u64, TextFault>
    ensures { Reads (λ n. bytes.now ≡ numeral n) (λ n. n < 2 ^ 64) result }
{
    if !is_unsigned(bytes) {
        return Err(TextFault::Shape);
    }
    let Some(text) = text_of(bytes) else {
        return Err(TextFault::Shape);
    };
    match text.parse() {
        Ok(number) => Ok(number),
        Err(_) => Err(TextFault::Range),
    }
}
