//! Parts of a text.

ghost use Rattle.scenario.specs.Inside.Reads.{IsCut};

/// The text up to the first space, and what follows it.
pub fn split_at_space(text: &str) -> Option<(&str, &str)>
    ensures { IsCut 32 text.now result }
{
    text.split_once(' ')
}

/// The text up to the first line feed, and what follows it.
pub fn split_at_line_feed(text: &str) -> Option<(&str, &str)>
    ensures { IsCut 10 text.now result }
{
    text.split_once('\n')
}
