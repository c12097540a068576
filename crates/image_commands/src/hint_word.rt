//! Whether a command line asks for hints.

ghost use Rattle.std.specs.Prelude.{◌≡◌, map};
ghost use Rattle.image_commands.specs.Hints.{command_in, has_hints};

use std::convert::AsStr;

/// Whether the word `--hints` comes before the command, and the words of the command.
pub fn hints_in<S: AsStr>(words: &[S]) -> (bool, &[S])
    ensures asked { result.0 ≡ has_hints (map S.text words.now) }
    ensures words { map S.text result.1.now ≡ command_in (map S.text words.now) }
{
    let Some((first, rest)) = words.split_first() else {
        return (false, words);
    };
    if first.as_str() == "--hints" {
        (true, rest)
    } else {
        (false, words)
    }
}
