//! The part of a source that is judged.

ghost use Rattle.std.specs.Prelude.{◌≤◌};
ghost use Rattle.image_commands.specs.Judged.{AreWholeLines, IsJudged};

/// How many bytes a text has at most.
pub const TEXT_LIMIT: usize = 1_048_576;

/// The lines that end within these bytes, without the last line feed.
fn whole_lines(bytes: &[u8]) -> &[u8]
    ensures { AreWholeLines bytes.now result.now }
{
    let mut end = bytes.len();
    while end > 0 {
        end -= 1;
        if bytes[end] == b'\n' {
            return &bytes[..end];
        }
    }
    &bytes[..0]
}

/// The part of a source that is judged: all of it; if it is longer than the limit, the lines that end within the limit.
pub fn judged(source: &[u8]) -> &[u8]
    ensures { IsJudged source.now result.now }
{
    if source.len() <= TEXT_LIMIT {
        source
    } else {
        whole_lines(&source[..TEXT_LIMIT])
    }
}
