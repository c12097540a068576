//! The code of a function of an object file.

ghost use Rattle.std.specs.Prelude.{◌≡◌, ◌≤◌, ◌<◌, ◌⊎◌, ℕ, Option, IfErr, IfOk, IfSome, IsTrue, List, OnErr, OnOk, length, option_map, take};
ghost use Rattle.elf.specs.Function.{IsCall, IsCode, IsFunction, IsObject, IsReference};
ghost use Rattle.elf.specs.Inside.{CallsAt, HasReference};
ghost use Rattle.elf.specs.Object.{is_elf, section_at, section_count};
ghost use Rattle.elf.specs.Refusal.{IsBroken, IsFaultOf, IsRefusal};

use crate::fault::{ObjectError, ObjectFault};
use crate::finder::find_function;
use crate::number::{u16_at, u32_at, u64_at};
use crate::section::{ADDEND_RELOCATIONS, RELOCATIONS, Section, section_at, section_count};
use crate::symbol::Symbol;
use crate::types::state_length;
use limits::SLOTS;
use std::alloc::Global;

/// The number of BPF among processors, and of object files among kinds.
const BPF: usize = 247;

const RELOCATABLE: usize = 1;

/// The opcode of a call, and its source register if it calls a function of the file (RFC 9669 section 4.3.2).
pub const CALL: u8 = 0x85;

pub const OF_A_FUNCTION: u8 = 1;

/// The code of a function, and how many bytes its state has, if the types of the file say so.
#[derive(Clone, Copy, Debug, PartialEq, Eq)]
pub struct FunctionCode<'a> {
    pub code: &'a [u8],
    pub state: Option<usize>,
}

/// Whether a file begins as ELF files do.
pub fn is_object(file: &[u8]) -> bool
    ensures { result ≡ is_elf file.now }
{
    file.len() >= 4 && file[0] == 0x7f && file[1] == b'E' && file[2] == b'L' && file[3] == b'F'
}

/// Whether a file is an object file of BPF.
fn check_header(file: &[u8]) -> Result<(), ObjectFault>
    ensures object { OnOk result (IsObject file.now) }
    ensures refused { IfErr result (λ f. (name : Option (List ℕ)) → IsFaultOf file.now name f) }
{
    if file.len() < 64 || !is_object(file) || file[4] != 2 || file[6] != 1 {
        return Err(ObjectFault::Kind);
    }
    if file[5] != 1 {
        return Err(ObjectFault::ByteOrder);
    }
    let processor = u16_at(file, 18);
    if processor != BPF {
        return Err(ObjectFault::Processor(processor as u16));
    }
    if u16_at(file, 16) != RELOCATABLE {
        return Err(ObjectFault::Linked);
    }
    Ok(())
}

/// Refuses relocations of a function's section that lie in its code.
fn check_relocations(
    file: &[u8],
    symbol: &Symbol,
    code: &[u8],
    section: &Section,
) -> Result<(), ObjectFault>
    requires kind { (section.now.kind ≡ 9) ⊎ (section.now.kind ≡ 4) }
    requires info { section.now.info ≡ symbol.now.section }
    ensures apart { OnOk result ((row : ℕ) → ¬ IsReference file.now symbol.now section.now row) }
    ensures refused { IfErr result (HasReference file.now symbol.now section.now) }
{
    let size = if section.kind == ADDEND_RELOCATIONS {
        24
    } else {
        16
    };
    let Some(rows) = section.bytes(file) else {
        return Err(ObjectFault::Damaged);
    };
    for row in 0..section.size / size {
        let (_before, rest) = rows.split_at(row * size);
        let (bytes, _after) = rest.split_at(size);
        let offset = u64_at(bytes, 0);
        if symbol.value <= offset && offset - symbol.value < symbol.size {
            let slot = (offset - symbol.value) / 8;
            return Err(ObjectFault::Reference {
                slot,
                is_call: has_call(code, slot),
                table: section.link,
                symbol: u32_at(bytes, 12),
            });
        }
    }
    Ok(())
}

/// Whether this slot of code has the opcode of a call.
fn has_call(code: &[u8], slot: usize) -> bool {
    match slot.checked_mul(8) {
        Some(at) => at < code.len() && code[at] == CALL,
        None => false,
    }
}

/// Refuses code that refers to symbols.
fn check_references(file: &[u8], symbol: &Symbol, code: &[u8]) -> Result<(), ObjectFault>
    requires { 64 ≤ length file.now }
    ensures apart { OnOk result ((index row : ℕ) → index < section_count file.now → ¬ IsReference file.now symbol.now (section_at file.now index) row) }
    ensures refused { IfErr result (IsBroken file.now symbol.now) }
{
    for index in 0..section_count(file) {
        let Some(section) = section_at(file, index) else {
            return Err(ObjectFault::Damaged);
        };
        let is_of_code = section.info == symbol.section;
        if is_of_code && (section.kind == RELOCATIONS || section.kind == ADDEND_RELOCATIONS) {
            check_relocations(file, symbol, code, &section)?;
        }
    }
    Ok(())
}

/// Refuses code that calls functions of the file.
fn check_calls(code: &[u8]) -> Result<(), ObjectFault>
    ensures complete { OnOk result ((slot : ℕ) → ¬ IsCall code.now slot) }
    ensures refused { IfErr result (CallsAt code.now) }
{
    for slot in 0..code.len() / 8 {
        if code[8 * slot] == CALL && code[8 * slot + 1] / 16 == OF_A_FUNCTION {
            return Err(ObjectFault::Call { slot });
        }
    }
    Ok(())
}

/// The code of a function that is complete by itself.
fn code_of<'a>(file: &'a [u8], symbol: &Symbol) -> Result<&'a [u8], ObjectFault>
    requires { 64 ≤ length file.now }
    ensures code { IfOk result (λ code. IsCode file.entry.now symbol.now code.now) }
    ensures refused { IfErr result (IsBroken file.entry.now symbol.now) }
{
    let Some(section) = section_at(file, symbol.section) else {
        return Err(ObjectFault::Damaged);
    };
    if symbol.value > section.size || symbol.size > section.size - symbol.value {
        return Err(ObjectFault::Outside);
    }
    if symbol.size > 8 * SLOTS {
        return Err(ObjectFault::Slots {
            slots: symbol.size / 8,
        });
    }
    let Some(bytes) = section.bytes(file) else {
        return Err(ObjectFault::Damaged);
    };
    let (_before, rest) = bytes.split_at(symbol.value);
    let (code, _after) = rest.split_at(symbol.size);
    check_references(file, symbol, code)?;
    check_calls(code)?;
    Ok(code)
}

/// The function of an object file that has this name; without a name the only one, or the only one that isn't static.
pub fn read_object<'a>(
    alloc: Global,
    file: &'a [u8],
    name: Option<&str>,
) -> Result<FunctionCode<'a>, ObjectError>
    ensures function { IfOk result (λ f. IsFunction file.entry.now (option_map (λ n. n.now) name.entry) f.code.now) }
    ensures refused { IfErr result (IsRefusal file.entry.now (option_map (λ n. n.now) name.entry)) }
{
    if let Err(fault) = check_header(file) {
        return Err(ObjectError::Fault(fault));
    }
    let symbol = match find_function(alloc, file, name) {
        Ok(symbol) => symbol,
        Err(error) => return Err(error),
    };
    match code_of(file, &symbol) {
        Ok(code) => Ok(FunctionCode {
            code,
            state: state_length(file, &symbol),
        }),
        Err(fault) => Err(ObjectError::Fault(fault)),
    }
}
