//! Laws of the text itself, and that written text is read back.

ghost use Rattle.std.specs.Prelude.{◌≡◌, ◌≤◌, ℕ, List, IfOk, IfErr};
ghost use Rattle.std.specs.List.{AllByRecursion};
ghost use Rattle.decode.specs.Encoding.{Fits};
ghost use Rattle.decode.specs.Slots.{slots};
ghost use Rattle.decode.specs.declared.insn.Insn.{Insn};
ghost use Rattle.assemble.specs.Refusal.{AreLines, IsFault};
ghost use Rattle.assemble.specs.Text.{IsText, lines_of, text_of};
ghost use Rattle.assemble.specs.declared.fault.AsmError.TheVariants.{Memory};
ghost use Rattle.assemble.specs.declared.fault.TextRule.{TextRule};

use crate::fault::AsmError;
use crate::parser::assemble;
use crate::printer::disassemble;
use decode::Insn;
use limits::SLOTS;
use std::alloc::Global;

/// A text belongs to at most one list.
pub fn one_list()
    ensures { (text : List ℕ) (is js : List Insn) → IsText text is → IsText text js → is ≡ js }
{}

/// A text has at most one fault, and a text with a fault belongs to no list of at most 1,024 slots.
pub fn one_fault()
    ensures once { (text : List ℕ) (q r : TextRule) (m n : ℕ) → IsFault text q m → IsFault text r n → (q ≡ r) × (m ≡ n) }
    ensures none { (text : List ℕ) (is : List Insn) (r : TextRule) (n : ℕ) → AreLines (lines_of text) is → IsFault text r n → ⊥ }
{}

/// The text written for a list belongs to it, and is read back if the list has at most 1,024 slots.
pub fn read_back()
    ensures written { (is : List Insn) → IsText (text_of is) is }
    ensures again { (is : List Insn) → AllByRecursion Fits is → slots is ≤ SLOTS → AreLines (lines_of (text_of is)) is }
{}

/// Writes at most 1,024 slots and reads them back: the same list, unless memory runs out.
pub fn there_and_back(alloc: Global, insns: &[Insn]) -> Result<Vec<Insn>, AsmError>
    requires { slots insns.now ≤ SLOTS }
    ensures { IfOk result (λ v. v.items ≡ insns.now) × IfErr result (λ e. e ≡ Memory) }
{
    let text = disassemble(alloc, insns)?;
    read_back();
    assemble(alloc, &text)
}
