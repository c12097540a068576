//! The sentence as which a mistake prints.

use crate::above::Above;
use crate::mistake::{Mistake, PROCESS};
use crate::verb::{VERBS, Verb};
use limits::PROCESSES;
use std::fmt;

/// The most letters of a word that are shown.
const SHOWN_LIMIT: usize = 40;

/// How bytes are written.
const PAIRS: &str = "bytes are pairs of 0 to 9 and a to f, at most 256 pairs, or - for none";

/// A part of a sentence.
#[derive(Clone, Copy)]
enum Part<'a> {
    Fixed(&'static str),
    /// A word of the text.
    Word(&'a str),
    Count(usize),
    Letter(char),
    /// A letter, printed by its number.
    Code(char),
    /// The processes that are declared above.
    Declared(Above<'a>),
    /// All words with which lines begin.
    Verbs,
}

/// Writes a word so that no letter can move a terminal's cursor, and at most `SHOWN_LIMIT` letters
/// of it.
fn show_word<W: fmt::Write>(f: &mut fmt::Formatter<W>, word: &str) -> fmt::Result {
    for letter in word.chars().take(SHOWN_LIMIT) {
        show_letter(f, letter)?;
    }
    f.write_str(if word.chars().count() > SHOWN_LIMIT {
        ".."
    } else {
        ""
    })
}

/// Writes a letter so that it can't move a terminal's cursor.
fn show_letter<W: fmt::Write>(f: &mut fmt::Formatter<W>, letter: char) -> fmt::Result {
    f.write_char(if letter.is_ascii_graphic() {
        letter
    } else {
        '?'
    })
}

/// Writes the number of a letter that isn't ASCII.
fn show_code<W: fmt::Write>(f: &mut fmt::Formatter<W>, letter: char) -> fmt::Result {
    let number = letter as u32;
    match number {
        0xa0 => f.write_str("a no-break space (U+00A0)"),
        0xfeff => f.write_str("a byte order mark (U+FEFF)"),
        _ => write!(f, "U+{number:04x}"),
    }
}

/// Writes all words with which lines begin.
fn name_verbs<W: fmt::Write>(f: &mut fmt::Formatter<W>) -> fmt::Result {
    f.write_str(PROCESS)?;
    for verb in VERBS {
        f.write_str(if verb == Verb::Drive { " and " } else { ", " })?;
        f.write_str(verb.word())?;
    }
    f.write_str(" do")
}

impl fmt::Display for Part<'_> {
    fn fmt<W: fmt::Write>(&self, f: &mut fmt::Formatter<W>) -> fmt::Result {
        match *self {
            Part::Fixed(words) => f.write_str(words),
            Part::Word(word) => show_word(f, word),
            Part::Count(count) => write!(f, "{count}"),
            Part::Letter(letter) => show_letter(f, letter),
            Part::Code(letter) => show_code(f, letter),
            Part::Declared(above) => above.fmt(f),
            Part::Verbs => name_verbs(f),
        }
    }
}

/// A sentence: fixed words, a part, fixed words, a part, fixed words.
#[derive(Clone, Copy)]
struct Sentence<'a>(&'static str, Part<'a>, &'static str, Part<'a>, &'static str);

impl<'a> Sentence<'a> {
    fn of(begin: &'static str, part: Part<'a>, end: &'static str) -> Sentence<'a> {
        Sentence(begin, part, end, Part::Fixed(""), "")
    }

    /// A sentence about the letter at a place.
    fn of_letter(place: usize, letter: char, end: &'static str) -> Sentence<'a> {
        Sentence(
            "letter ",
            Part::Count(place),
            " is ",
            Part::Code(letter),
            end,
        )
    }

    /// The sentence with this part as its last.
    fn ending(self, part: Part<'a>) -> Sentence<'a> {
        Sentence(self.0, self.1, self.2, part, self.4)
    }
}

impl fmt::Display for Sentence<'_> {
    fn fmt<W: fmt::Write>(&self, f: &mut fmt::Formatter<W>) -> fmt::Result {
        f.write_str(self.0)?;
        self.1.fmt(f)?;
        f.write_str(self.2)?;
        self.3.fmt(f)?;
        f.write_str(self.4)
    }
}

impl<'a> Mistake<'a> {
    /// The sentence of a mistake that has nothing of the text.
    fn fixed(self) -> Option<&'static str> {
        match self {
            Mistake::NoProcess => Some("no line declares a process: process NAME PATH"),
            Mistake::Mark => Some(
                "a byte order mark (U+FEFF) before the first letter: save the text as UTF-8 without one",
            ),
            Mistake::CarriageReturn => Some("a carriage return: lines end with a line feed alone"),
            Mistake::Null => {
                Some(
                    "a NUL (U+0000), which each second letter of UTF-16 is: save the text as UTF-8",
                )
            }
            Mistake::Cluster => Some(
                "this looks like the text of a cluster, which sblog-node --cluster reads (docs/CLUSTER.md)",
            ),
            Mistake::Tab => Some("a tab: words stand with one space between them"),
            Mistake::Space => Some("a space at the beginning or the end, or two in a row"),
            Mistake::Semicolon => Some("no line ends with a semicolon"),
            Mistake::Several => Some(
                "a semicolon: each order stands on a line of its own, without one",
            ),
            Mistake::Path => {
                Some(
                    "more or fewer words than in: process NAME PATH (a path has no space in it, and no quotes)",
                )
            }
            Mistake::Comment => Some("a comment stands on a line of its own, which begins with #"),
            Mistake::Late => Some("processes are declared before the first order"),
            Mistake::InputsAlone => Some("only input and bytes lines can stand here"),
            _ => None,
        }
    }

    /// The sentence of a mistake that shows something of the text.
    fn sentence(self) -> Sentence<'a> {
        match self {
            Mistake::Foreign { word } => Sentence::of(
                "no line begins with ",
                Part::Word(word),
                ", and none declares a process, so this is no scenario (assembler text is for sblog asm, C for clang and then sblog pack)",
            ),
            Mistake::Capital { word } => Sentence::of(
                "",
                Part::Word(word),
                " has a capital letter: words are in small ones",
            ),
            Mistake::Control { letter, place } => Sentence::of_letter(
                place,
                letter,
                ", a control character: no terminal shows it",
            ),
            Mistake::Letter { letter, place } => Sentence::of_letter(
                place,
                letter,
                ": outside of paths and comments all are ASCII",
            ),
            Mistake::Verb { word } => Sentence::of(
                "no line begins with ",
                Part::Word(word),
                ": ",
            ).ending(Part::Verbs),
            Mistake::Words(word, operands) => Sentence::of(
                "more or fewer words than in: ",
                Part::Fixed(word),
                " ",
            ).ending(Part::Fixed(operands)),
            _ => self.name(),
        }
    }

    /// The sentence of a mistake in a name.
    fn name(self) -> Sentence<'a> {
        match self {
            Mistake::Full => Sentence::of(
                "there are at most ",
                Part::Count(PROCESSES),
                " processes",
            ),
            Mistake::Name { name } => Sentence::of(
                "",
                Part::Word(name),
                " is no name: 1 to 16 of a to z and 0 to 9, a letter first, and not outside",
            ),
            Mistake::Taken { name } => Sentence::of("", Part::Word(name), " is declared above"),
            Mistake::Unknown { name, above } => Sentence::of(
                "no process is named ",
                Part::Word(name),
                "; ",
            ).ending(Part::Declared(above)),
            Mistake::Numbered { name, above } => Sentence::of(
                "no process is named ",
                Part::Word(name),
                ": its name stands here, not its number; ",
            )
            .ending(Part::Declared(above)),
            Mistake::Zero { above } => Sentence::of(
                "no process is named 0, and the outside is written outside; ",
                Part::Declared(above),
                "",
            ),
            Mistake::Outside { above } => Sentence::of(
                "the outside is no process, and only a process can stand here; ",
                Part::Declared(above),
                "",
            ),
            _ => self.number(),
        }
    }

    /// The sentence of a mistake in a number or in bytes.
    fn number(self) -> Sentence<'a> {
        match self {
            Mistake::Number { word, bits } => Sentence::of(
                "",
                Part::Word(word),
                " is no number: 0, or digits without a leading zero, below 2^",
            )
            .ending(Part::Count(bits as usize)),
            Mistake::Digit { letter } if letter.is_ascii_uppercase() => Sentence::of(
                "",
                Part::Letter(letter),
                " is a capital letter: ",
            ).ending(Part::Fixed(PAIRS)),
            Mistake::Digit { letter } => Sentence::of(
                "",
                Part::Letter(letter),
                " is no digit of bytes: ",
            ).ending(Part::Fixed(PAIRS)),
            Mistake::Odd { digits } => Sentence::of(
                "an odd number of digits, ",
                Part::Count(digits),
                ": ",
            ).ending(Part::Fixed(PAIRS)),
            Mistake::Long { bytes } => Sentence::of(
                "",
                Part::Count(bytes),
                " pairs are too many: ",
            ).ending(Part::Fixed(PAIRS)),
            _ => Sentence::of("", Part::Fixed(""), ""),
        }
    }
}

impl fmt::Display for Mistake<'_> {
    fn fmt<W: fmt::Write>(&self, f: &mut fmt::Formatter<W>) -> fmt::Result {
        match self.fixed() {
            Some(words) => f.write_str(words),
            None => self.sentence().fmt(f),
        }
    }
}
