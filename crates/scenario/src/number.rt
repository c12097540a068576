//! Numbers of a scenario.

ghost use Rattle.std.specs.Prelude.{◌≡◌, ◌&&◌, decimal};
ghost use Rattle.std.specs.Char.{is_ascii_digit};
ghost use Rattle.std.specs.List.{list_all};
ghost use Rattle.scenario.specs.Inside.Reads.{HasBits, Reads, has_leading_zero, is_numeral};

/// Whether the text is digits only.
fn are_digits(text: &[u8]) -> bool
    ensures { result ≡ list_all is_ascii_digit text.now }
{
    text.iter().all(|byte| byte.is_ascii_digit())
}

/// Whether there is a 0 with more after it.
fn has_leading_zero(text: &[u8]) -> bool
    ensures { result ≡ has_leading_zero text.now }
{
    text.len() > 1 && text[0] == b'0'
}

/// Whether the text is `0`, or digits without a leading zero.
fn is_numeral(text: &[u8]) -> bool
    ensures { result ≡ is_numeral text.now }
{
    !text.is_empty() && !has_leading_zero(text) && are_digits(text)
}

/// A number below 2^32.
pub fn number_of(text: &str) -> Option<u32>
    ensures { Reads decimal (HasBits 32) text.now result }
{
    if !is_numeral(text.as_bytes()) {
        return None;
    }
    match text.parse::<u32>() {
        Ok(number) => Some(number),
        Err(_) => None,
    }
}

/// A number below 2^64.
pub fn word_of(text: &str) -> Option<u64>
    ensures { Reads decimal (HasBits 64) text.now result }
{
    if !is_numeral(text.as_bytes()) {
        return None;
    }
    match text.parse::<u64>() {
        Ok(number) => Some(number),
        Err(_) => None,
    }
}
