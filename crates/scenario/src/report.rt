//! The lines of a report.

ghost use Rattle.std.specs.Prelude.{◌≡◌, ◌++◌, OnOk, string_bytes};
ghost use Rattle.scenario.specs.Report.{exact_line, output_line, phase_text, process_line};

use crate::bytes::Hex;
use std::alloc::AllocError;
use world::PhaseName;

/// The word of a phase.
pub fn phase_word(phase: PhaseName) -> &'static str
    ensures { result.now ≡ phase_text phase }
{
    match phase {
        PhaseName::Up => "up",
        PhaseName::Busy => "busy",
        PhaseName::Down => "down",
        PhaseName::Replaying => "replaying",
        PhaseName::Resync => "resync",
    }
}

/// Writes the line of a process: its name and phase, how many messages are in its state, and the
/// state.
pub fn push_process(
    out: &mut String,
    name: &str,
    phase: PhaseName,
    length: u32,
    state: &[u8],
) -> Result<(), AllocError>
    ensures { OnOk result (string_bytes out.new ≡ string_bytes out.old ++ process_line name.now phase length state.now) }
{
    let word = phase_word(phase);
    let hex = Hex(state);
    writeln!(out, "process {name} {word} {length} {hex}")
}

/// Writes the line of an output: the name of its process, its SSN to the outside, and its bytes.
pub fn push_output(out: &mut String, name: &str, ssn: u32, payload: &[u8]) -> Result<(), AllocError>
    ensures { OnOk result (string_bytes out.new ≡ string_bytes out.old ++ output_line name.now ssn payload.now) }
{
    let hex = Hex(payload);
    writeln!(out, "output {name} {ssn} {hex}")
}

/// Writes whether failures came one at a time.
pub fn push_exact(out: &mut String, exact: bool) -> Result<(), AllocError>
    ensures { OnOk result (string_bytes out.new ≡ string_bytes out.old ++ exact_line exact) }
{
    if exact {
        out.push_str("exact\n")
    } else {
        out.push_str("not exact\n")
    }
}
