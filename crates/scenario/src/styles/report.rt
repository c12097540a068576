//! The lines of a report, and of refused orders.

ghost use Rattle.std.specs.Prelude.{◌≡◌, ◌++◌, OnOk, string_bytes};
ghost use Rattle.scenario.specs.Hex.{hex_text};
ghost use Rattle.scenario.specs.Styles.Lines.{exact_text, output_text, process_text, quoted, counted, refused_text};
ghost use Rattle.scenario.specs.Styles.Style.{style_of};

use crate::styles::style::Style;
use crate::{Hex, phase_word};
use std::alloc::AllocError;
use world::PhaseName;

/// Writes `before`, and then a text in JSON: its key, and the text in quotes.
#[tactic(auto, unfolding(crate::specs::Styles::Lines::quoted))]
fn push_quoted(out: &mut String, before: &str, key: &str, text: &str) -> Result<(), AllocError>
    ensures { OnOk result (string_bytes out.new ≡ string_bytes out.old ++ quoted before.now key.now text.now) }
{
    write!(out, "{before}\"{key}\":\"{text}\"")
}

/// Writes `before`, and then bytes in JSON.
#[tactic(auto, unfolding(crate::specs::Styles::Lines::quoted))]
fn push_bytes(out: &mut String, before: &str, key: &str, bytes: &[u8]) -> Result<(), AllocError>
    ensures { OnOk result (string_bytes out.new ≡ string_bytes out.old ++ quoted before.now key.now (hex_text bytes.now)) }
{
    let hex = Hex(bytes);
    write!(out, "{before}\"{key}\":\"{hex}\"")
}

/// Writes a number in JSON.
#[tactic(auto, unfolding(crate::specs::Styles::Lines::counted))]
fn push_counted(out: &mut String, key: &str, count: u32) -> Result<(), AllocError>
    ensures { OnOk result (string_bytes out.new ≡ string_bytes out.old ++ counted key.now count) }
{
    write!(out, ",\"{key}\":{count}")
}

impl Style<'_> {
    /// Writes the line of a refused order, with the refusal's number. If the order wasn't refused,
    /// it writes nothing.
    pub fn push_refused(
        self,
        out: &mut String,
        line: usize,
        refused: Option<u8>,
    ) -> Result<(), AllocError>
        ensures { OnOk result (string_bytes out.new ≡ string_bytes out.old ++ refused_text (style_of self.entry) line refused) }
    {
        let Some(number) = refused else {
            return Ok(());
        };
        if self.json {
            writeln!(out, "{{\"line\":{line},\"refused\":{number}}}")
        } else {
            writeln!(out, "line {line} refused {number}")
        }
    }

    /// Writes the line of a process: its name and phase, how many messages are in its state, and the state.
    pub fn push_process(
        self,
        out: &mut String,
        name: &str,
        phase: PhaseName,
        length: u32,
        state: &[u8],
    ) -> Result<(), AllocError>
        ensures { OnOk result (string_bytes out.new ≡ string_bytes out.old ++ process_text (style_of self.entry) name.now phase length state.now) }
    {
        if !self.json {
            return crate::push_process(out, name, phase, length, state);
        }
        push_quoted(out, "{", "process", name)?;
        push_quoted(out, ",", "phase", phase_word(phase))?;
        push_counted(out, "messages", length)?;
        push_bytes(out, ",", "state", state)?;
        out.push_str("}\n")
    }

    /// Writes the line of an output: the name of its process, its SSN to the outside, and its
    /// bytes.
    pub fn push_output(
        self,
        out: &mut String,
        name: &str,
        ssn: u32,
        payload: &[u8],
    ) -> Result<(), AllocError>
        ensures { OnOk result (string_bytes out.new ≡ string_bytes out.old ++ output_text (style_of self.entry) name.now ssn payload.now) }
    {
        if !self.json {
            return crate::push_output(out, name, ssn, payload);
        }
        push_quoted(out, "{", "output", name)?;
        push_counted(out, "ssn", ssn)?;
        push_bytes(out, ",", "bytes", payload)?;
        out.push_str("}\n")
    }

    /// Writes whether failures came one at a time.
    pub fn push_exact(self, out: &mut String, exact: bool) -> Result<(), AllocError>
        ensures { OnOk result (string_bytes out.new ≡ string_bytes out.old ++ exact_text (style_of self.entry) exact) }
    {
        if !self.json {
            return crate::push_exact(out, exact);
        }
        writeln!(out, "{{\"exact\":{exact}}}")
    }
}
