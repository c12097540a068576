//! A text to instructions.

ghost use Rattle.std.specs.Prelude.{List, length, ◌≤◌, IfOk, IfErr, ◌≡◌, ◌∷◌};
ghost use Rattle.assemble.specs.Inside.Loop.{ReadsAfter, left, lines_left};
ghost use Rattle.assemble.specs.Refusal.{AreLines, IsRefusal};
ghost use Rattle.assemble.specs.Text.{is_silent, lines_of};
ghost use Rattle.assemble.specs.declared.fault.AsmError.TheVariants.{Memory};
ghost use Rattle.decode.specs.declared.insn.Insn.{Insn};

use crate::fault::{AsmError, TextRule};
use crate::line::read_line;
use crate::split::split_at_byte;
use decode::Insn;
use limits::SLOTS;
use std::alloc::Global;

/// Reads the instructions of a text, one a line, of at most 1,024 slots (docs/FORMATS.md, "Assembler text"). Empty
/// lines and lines that begin with `#` give none. The error names the first faulty line, counted from 1, and the least
/// rule that it breaks.
pub fn assemble(alloc: Global, text: &str) -> Result<Vec<Insn>, AsmError>
    // The lines of the text are those of what was read.
    ensures found { IfOk result (λ v. AreLines (lines_of text.now) v.items) }
    // If the lines of the text are those of a list, that list is read, unless memory runs out.
    ensures only { (is : List Insn) → AreLines (lines_of text.now) is → IfOk result (λ v. v.items ≡ is) × IfErr result (λ e. e ≡ Memory) }
    // Which rule and which line an error names.
    ensures refused { IfErr result (IsRefusal text.now) }
{
    read_lines(alloc, text.as_bytes())
}

/// The instructions of the lines of these bytes.
fn read_lines(alloc: Global, text: &[u8]) -> Result<Vec<Insn>, AsmError>
    ensures found { IfOk result (λ v. AreLines (lines_of text.now) v.items) }
    ensures refused { IfErr result (IsRefusal text.now) }
{
    let mut insns = Vec::new(alloc);
    let mut slots = 0;
    let mut line = 0;
    let mut rest = Some(text);
    while let Some(here) = rest {
        let (front, after) = cut_line(here);
        line += 1;
        let read = match read_after(slots, front) {
            Ok(read) => read,
            Err(rule) => return Err(AsmError::Fault { rule, line }),
        };
        if let Some(insn) = read {
            slots += insn.slots();
            insns.push(insn)?;
        }
        rest = after;
    }
    Ok(insns)
}

/// The first line, and what follows its line feed.
fn cut_line(text: &[u8]) -> (&[u8], Option<&[u8]>)
    ensures lines { lines_of text.now ≡ result.0.now ∷ lines_left result.1 }
    ensures shorter { left result.1 ≤ length text.now }
{
    match split_at_byte(text, b'\n') {
        Some((line, after)) => (line, Some(after)),
        None => (text, None),
    }
}

/// Whether a line gives no instruction: it is empty, or a comment.
fn is_silent(line: &[u8]) -> bool
    ensures { result ≡ is_silent line.now }
{
    line.is_empty() || line[0] == b'#'
}

/// The instruction of a line after this many slots, if it gives one.
fn read_after(slots: usize, line: &[u8]) -> Result<Option<Insn>, TextRule>
    requires { slots ≤ SLOTS }
    ensures { ReadsAfter slots line.now result }
{
    if is_silent(line) {
        return Ok(None);
    }
    match read_line(line) {
        Ok(insn) => {
            if slots + insn.slots() > SLOTS {
                return Err(TextRule::Limit);
            }
            Ok(Some(insn))
        }
        Err(rule) => Err(rule),
    }
}
