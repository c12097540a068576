//! The sentence that a mistake prints.

use crate::mistake::{TextMistake, Wanted};
use std::fmt;

/// How many letters of a word are shown at most.
const SHOWN_LIMIT: usize = 40;

impl Wanted {
    /// What is wrong with an operand of the wrong shape, and how it is written.
    fn shape(self) -> &'static str {
        match self {
            Wanted::Register => "is no register: r0 to r10",
            Wanted::Source => {
                "is no register, r0 to r10, and no number: 0, or decimal digits without a leading zero, behind a - where it is negative"
            }
            Wanted::Number => {
                "is no number: 0, or decimal digits without a leading zero, behind a - where it is negative"
            }
            Wanted::Helper => {
                "is no number: helper 1 is send, 2 output, 3 the own number, 4 the sender, 5 send of a length, 6 output of a length"
            }
            Wanted::Value => "is no number: 0, or decimal digits without a leading zero or a sign",
            Wanted::Address => {
                "is no place: a register and a distance with its sign, in brackets, as [r1+0] or [r10-8]"
            }
            Wanted::Offset | Wanted::Distance => {
                "is no distance: decimal digits without a leading zero, behind a + or a -, as +2, or +0"
            }
        }
    }

    /// The range of its number.
    fn range(self) -> &'static str {
        match self {
            Wanted::Register => "r0 to r10",
            Wanted::Source | Wanted::Number | Wanted::Helper | Wanted::Distance => {
                "-2147483648 to 2147483647"
            }
            Wanted::Value => "0 to 18446744073709551615",
            Wanted::Address | Wanted::Offset => "-32768 to 32767",
        }
    }
}

/// A part of a sentence.
#[derive(Clone, Copy)]
enum Part<'a> {
    /// Words as they are.
    Fixed(&'a str),
    /// A word of the text.
    Word(&'a str),
    Count(usize),
    /// A letter by its number.
    Code(char),
}

/// Writes a word so that it can be shown: cut to the limit, and without letters that could move a terminal's cursor.
fn show_word<W: fmt::Write>(f: &mut fmt::Formatter<W>, word: &str) -> fmt::Result {
    for letter in word.chars().take(SHOWN_LIMIT) {
        f.write_char(if letter == ' ' || letter.is_ascii_graphic() {
            letter
        } else {
            '?'
        })?;
    }
    f.write_str(if word.chars().count() > SHOWN_LIMIT {
        ".."
    } else {
        ""
    })
}

/// Writes a letter that isn't ASCII by its number.
fn show_code<W: fmt::Write>(f: &mut fmt::Formatter<W>, letter: char) -> fmt::Result {
    let number = letter as u32;
    match number {
        0xa0 => f.write_str("a no-break space (U+00A0)"),
        0xfeff => f.write_str("a byte order mark (U+FEFF)"),
        _ => write!(f, "U+{number:04x}"),
    }
}

impl fmt::Display for Part<'_> {
    fn fmt<W: fmt::Write>(&self, f: &mut fmt::Formatter<W>) -> fmt::Result {
        match *self {
            Part::Fixed(words) => f.write_str(words),
            Part::Word(word) => show_word(f, word),
            Part::Count(count) => write!(f, "{count}"),
            Part::Code(letter) => show_code(f, letter),
        }
    }
}

/// A sentence: fixed words, a part, fixed words, a part, fixed words.
#[derive(Clone, Copy)]
struct Sentence<'a>(&'static str, Part<'a>, &'static str, Part<'a>, &'static str);

impl<'a> Sentence<'a> {
    fn of(begin: &'static str, part: Part<'a>, end: &'static str) -> Sentence<'a> {
        Sentence(begin, part, end, Part::Fixed(""), "")
    }

    /// The sentence on the letter at a place.
    fn of_letter(place: usize, letter: char, end: &'static str) -> Sentence<'a> {
        Sentence(
            "letter ",
            Part::Count(place),
            " is ",
            Part::Code(letter),
            end,
        )
    }
}

impl fmt::Display for Sentence<'_> {
    fn fmt<W: fmt::Write>(&self, f: &mut fmt::Formatter<W>) -> fmt::Result {
        f.write_str(self.0)?;
        self.1.fmt(f)?;
        f.write_str(self.2)?;
        self.3.fmt(f)?;
        f.write_str(self.4)
    }
}

impl<'a> TextMistake<'a> {
    /// The whole sentence of a mistake that quotes nothing.
    fn fixed(self) -> Option<&'static str> {
        match self {
            TextMistake::Mark => Some(
                "a byte order mark (U+FEFF) before the first letter: save the text as UTF-8 without one",
            ),
            TextMistake::CarriageReturn => Some(
                "a carriage return: lines end with a line feed alone",
            ),
            TextMistake::Null => {
                Some(
                    "a NUL (U+0000), which each second letter of UTF-16 is: save the text as UTF-8",
                )
            }
            TextMistake::Tab => Some(
                "a tab: one space stands behind the first word and behind a comma, and none before the first word or at the end",
            ),
            TextMistake::Indent => Some("a space before the first word"),
            TextMistake::Semicolon => Some(
                "a semicolon: each instruction stands on a line of its own, without one",
            ),
            TextMistake::Hash => Some("a number stands without a # before it"),
            TextMistake::Comment => Some(
                "a comment stands on a line of its own, which begins with #",
            ),
            TextMistake::Space => Some("a space at the end, or two in a row"),
            TextMistake::Comma => Some(
                "a comma and one space stand between operands, and no space before the comma",
            ),
            _ => self.foreign(),
        }
    }

    /// The same for text that is meant for another program.
    fn foreign(self) -> Option<&'static str> {
        match self {
            TextMistake::Compiler => Some(
                "this looks like a compiler's assembler text: clang -c in place of clang -S, and sblog pack writes the image (docs/HANDLERS.md)",
            ),
            TextMistake::Language => Some(
                "this looks like C: clang compiles it, and sblog pack writes the image (docs/HANDLERS.md)",
            ),
            TextMistake::Label => Some(
                "there are no labels: a jump has its distance in slots, as ja +2",
            ),
            TextMistake::Listing => Some(
                "this looks like a listing, of sblog explain or llvm-objdump: sblog dis prints the text of an image",
            ),
            TextMistake::Foreign => Some(
                "this is how clang writes an instruction: here a word stands first, as in jeq r1, 0, +2 or stxdw [r2+0], r3",
            ),
            TextMistake::Scenario => Some("this looks like a scenario: sblog run carries it out"),
            _ => None,
        }
    }

    /// The sentence of a mistake that quotes something from the text.
    fn sentence(self) -> Sentence<'a> {
        match self {
            TextMistake::Control { letter, place } => Sentence::of_letter(
                place,
                letter,
                ", a control character: no terminal shows it",
            ),
            TextMistake::Letter { letter, place } => Sentence::of_letter(
                place,
                letter,
                ": outside of comments all are ASCII",
            ),
            TextMistake::Register { word } => Sentence::of(
                "a line begins with the word of its instruction, as mov ",
                Part::Word(word),
                ", 0, and not with a register",
            ),
            TextMistake::Capital { word } => Sentence::of(
                "",
                Part::Word(word),
                " has a capital letter: words are in small ones",
            ),
            TextMistake::Word { word } => Sentence::of(
                "no instruction has the word ",
                Part::Word(word),
                ": add, sub, mul, div, sdiv, mod, smod, or, and, xor, lsh, rsh, arsh, neg, mov, movsx8 to movsx32, ja, jal, jeq, jne, jgt, jge, jlt, jle, jsgt, jsge, jslt, jsle, jset, le, be and swap with 16, 32 or 64, ldxb, ldxh, ldxw, ldxdw, stxb to stxdw, stb to stdw, lddw, call and exit do; with 32 behind it, half as wide",
            ),
            _ => self.operand(),
        }
    }

    /// The sentence of a mistake in operands.
    fn operand(self) -> Sentence<'a> {
        match self {
            TextMistake::Operands { word, form } => Sentence::of(
                "more or fewer operands than in: ",
                Part::Fixed(word),
                form,
            ),
            TextMistake::Shape { word, wanted } => Sentence(
                "",
                Part::Word(word),
                " ",
                Part::Fixed(wanted.shape()),
                "",
            ),
            TextMistake::Range { word, wanted } => Sentence(
                "",
                Part::Word(word),
                " is out of its range, ",
                Part::Fixed(wanted.range()),
                "",
            ),
            _ => Sentence::of("", Part::Fixed(""), ""),
        }
    }
}

impl fmt::Display for TextMistake<'_> {
    fn fmt<W: fmt::Write>(&self, f: &mut fmt::Formatter<W>) -> fmt::Result {
        match self.fixed() {
            Some(words) => f.write_str(words),
            None => self.sentence().fmt(f),
        }
    }
}
