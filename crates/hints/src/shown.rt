//! Lines and words, and what they may be meant for.

/// The length of the longest line that is shown as it should be.
const LINE: usize = 600;

/// The line of this number, from 1; empty if it is too long to be shown.
pub(crate) fn line_at(text: &str, number: usize) -> &str {
    match text.split('\n').nth(number.saturating_sub(1)) {
        Some(line) if line.len() <= LINE => line,
        _ => "",
    }
}

/// The number of a word in hexadecimal, as 0x10.
pub(crate) fn hexadecimal_of(word: &str) -> Option<u64> {
    let digits = word.strip_prefix("0x")?;
    let mut number = 0u64;
    for digit in digits.bytes() {
        let value = match digit {
            b'0'..=b'9' => digit - b'0',
            b'a'..=b'f' => digit - b'a' + 10,
            b'A'..=b'F' => digit - b'A' + 10,
            _ => return None,
        };
        number = number.checked_mul(16)?.checked_add(u64::from(value))?;
    }
    Some(number)
}

/// What a word may be meant for, by rows of words and what they mean.
pub(crate) fn meant(rows: &[(&'static str, &'static str)], word: &str) -> Option<&'static str> {
    for (said, right) in rows {
        if said.split(' ').any(|it| it == word) {
            return Some(*right);
        }
    }
    None
}
