//! The functions of an object file, and which of them is asked for.

ghost use Rattle.std.specs.Prelude.{◌≡◌, ◌≤◌, ◌/◌, ◌++◌, ◌↔◌, ◌⊎◌, ◌≢◌, ◌∷◌, [], IfErr, IfNone, IfOk, IfSome, IsTrue, MatchOption, OnOk, length, option_map};
ghost use Rattle.elf.specs.Function.{IsChosen, IsNamed, IsOnly, globals};
ghost use Rattle.elf.specs.Inside.{IsUnnamed, IsUnread, IsUnreadRow, IsUnreadTable};
ghost use Rattle.elf.specs.Object.{functions_of, functions_of_table, if_function, is_function, symbol_in};
ghost use Rattle.elf.specs.Refusal.{IsDamaged, IsRefusal};
ghost use Rattle.elf.specs.declared.symbol.Symbol.{Symbol};
ghost use Rattle.elf.specs.declared.fault.ObjectError.TheVariants.{Fault, Memory};
ghost use Rattle.elf.specs.declared.fault.ObjectFault.TheVariants.{Damaged, NoSuchFunction, Several};

use crate::fault::{ObjectError, ObjectFault};
use crate::number::is_text;
use crate::section::{SYMBOLS, Section, section_at, section_count};
use crate::symbol::{FUNCTION, SYMBOL_ROW, Symbol, symbol_in};
use std::alloc::{AllocError, Global};

/// Whether a symbol is a function in a section of code.
#[tactic(auto, unfolding(crate::specs::Object::is_function))]
fn is_function(file: &[u8], symbol: &Symbol) -> Option<bool>
    requires { 64 ≤ length file.now }
    ensures is { IfSome result (λ is. is ≡ is_function file.now symbol.now) }
    ensures damaged { IfNone result (IsDamaged file.now) }
{
    if symbol.kind != FUNCTION || symbol.section == 0 || symbol.section >= section_count(file) {
        return Some(false);
    }
    let section = section_at(file, symbol.section)?;
    Some(section.is_code())
}

/// Appends the symbol of a row of a table, if it is a function. The names of the table lie from this place on.
fn push_function(
    file: &[u8],
    names: usize,
    row: &[u8],
    functions: &mut Vec<Symbol>,
) -> Result<(), ObjectError>
    requires long { 64 ≤ length file.now }
    requires row { 24 ≤ length row.now }
    ensures found { OnOk result (functions.new.items ≡ functions.old.items ++ if_function file.now (symbol_in names row.now)) }
    ensures fault { IfErr result (IsUnreadRow file.now names row.now) }
{
    let Some(symbol) = symbol_in(names, row) else {
        return Err(ObjectError::Fault(ObjectFault::Damaged));
    };
    match is_function(file, &symbol) {
        Some(true) => match functions.push(symbol) {
            Ok(()) => Ok(()),
            Err(_) => Err(ObjectError::Memory),
        },
        Some(false) => Ok(()),
        None => Err(ObjectError::Fault(ObjectFault::Damaged)),
    }
}

/// Appends the functions of a section, if it is a table of symbols.
fn push_functions(
    file: &[u8],
    table: &Section,
    functions: &mut Vec<Symbol>,
) -> Result<(), ObjectError>
    requires { 64 ≤ length file.now }
    ensures found { OnOk result (functions.new.items ≡ functions.old.items ++ functions_of_table file.now table.now) }
    ensures fault { IfErr result (IsUnreadTable file.now table.now) }
{
    if table.kind != SYMBOLS {
        return Ok(());
    }
    let (Some(rows), Some(names)) = (table.bytes(file), section_at(file, table.link)) else {
        return Err(ObjectError::Fault(ObjectFault::Damaged));
    };
    for row in 0..table.size / SYMBOL_ROW {
        let (_before, rest) = rows.split_at(row * SYMBOL_ROW);
        let (bytes, _after) = rest.split_at(SYMBOL_ROW);
        push_function(file, names.offset, bytes, functions)?;
    }
    Ok(())
}

/// The functions of a file. Sections that together are longer than the file overlap: such a file is damaged. So the file's length
/// bounds what is read.
pub fn functions(alloc: Global, file: &[u8]) -> Result<Vec<Symbol>, ObjectError>
    requires { 64 ≤ length file.now }
    ensures found { IfOk result (λ v. v.items ≡ functions_of file.now) }
    ensures fault { IfErr result (IsUnread file.now) }
{
    let mut functions = Vec::new(alloc);
    let mut total = 0usize;
    for index in 0..section_count(file) {
        let Some(section) = section_at(file, index) else {
            return Err(ObjectError::Fault(ObjectFault::Damaged));
        };
        total = total.saturating_add(section.stored_size());
        if total > file.len() {
            return Err(ObjectError::Fault(ObjectFault::Damaged));
        }
        push_functions(file, &section, &mut functions)?;
    }
    Ok(functions)
}

/// The first function of a name.
fn named(file: &[u8], name: &str, functions: &[Symbol]) -> Option<Symbol>
    ensures { MatchOption result (IsUnnamed file.now name.now functions.now) (IsNamed file.now name.now functions.now) }
{
    for function in functions {
        if is_text(file, function.name, name) {
            return Some(*function);
        }
    }
    None
}

/// The functions that aren't static.
fn globals(alloc: Global, functions: &[Symbol]) -> Result<Vec<Symbol>, AllocError>
    ensures { IfOk result (λ v. v.items ≡ globals functions.now) }
{
    functions
        .iter()
        .filter(|function| !function.is_local)
        .copied()
        .collect(alloc)
}

/// The symbol of a list of one.
#[tactic(auto, using(crate::proofs::ObjectLemmas::single))]
fn only_one(symbols: &[Symbol]) -> Option<Symbol>
    ensures { MatchOption result ((symbol : Symbol) → symbols.now ≢ symbol ∷ []) (λ symbol. symbols.now ≡ symbol ∷ []) }
{
    if symbols.len() == 1 {
        Some(symbols[0])
    } else {
        None
    }
}

/// The only function, or the only one that isn't static.
fn only(alloc: Global, functions: &[Symbol]) -> Result<Option<Symbol>, AllocError>
    ensures { IfOk result (λ found. MatchOption found ((symbol : Symbol) → ¬ IsOnly functions.now symbol) (IsOnly functions.now)) }
{
    if let Some(function) = only_one(functions) {
        return Ok(Some(function));
    }
    let globals = globals(alloc, functions)?;
    Ok(only_one(globals.as_slice()))
}

/// The function of this name among these, or the only one.
fn choose(
    alloc: Global,
    file: &[u8],
    name: Option<&str>,
    functions: &[Symbol],
) -> Result<Symbol, ObjectError>
    requires { functions.now ≡ functions_of file.now }
    ensures found { IfOk result (IsChosen file.now (option_map (λ n. n.now) name.entry) (functions_of file.now)) }
    ensures refused { IfErr result (IsRefusal file.now (option_map (λ n. n.now) name.entry)) }
{
    if functions.is_empty() {
        return Err(ObjectError::Fault(ObjectFault::NoFunction));
    }
    match name {
        Some(name) => match named(file, name, functions) {
            Some(function) => Ok(function),
            None => Err(ObjectError::Fault(ObjectFault::NoSuchFunction)),
        },
        None => match only(alloc, functions) {
            Ok(Some(function)) => Ok(function),
            Ok(None) => Err(ObjectError::Fault(ObjectFault::Several)),
            Err(_) => Err(ObjectError::Memory),
        },
    }
}

/// The function of this name; without a name the only one, or the only one that isn't static.
pub fn find_function(alloc: Global, file: &[u8], name: Option<&str>) -> Result<Symbol, ObjectError>
    requires { 64 ≤ length file.now }
    ensures found { IfOk result (IsChosen file.now (option_map (λ n. n.now) name.entry) (functions_of file.now)) }
    ensures refused { IfErr result (IsRefusal file.now (option_map (λ n. n.now) name.entry)) }
{
    match functions(alloc, file) {
        Ok(functions) => choose(alloc, file, name, functions.as_slice()),
        Err(error) => Err(error),
    }
}
