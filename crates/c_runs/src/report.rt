//! The report of a call, as bytes.

ghost use Rattle.std.specs.Prelude.{◌≡◌, ◌≤◌, ◌+◌, ◌*◌, length};
ghost use Rattle.std.specs.List.{flat_map};
ghost use Rattle.helpers.specs.Payload.{view64};
ghost use Rattle.operations.specs.Bytes.{overwritten};
ghost use Rattle.c_runs.specs.Layout.{header_bytes, sent_bytes, report_bytes, fault_bytes};

use crate::bytes::{put, put_number};
use helpers::{Effects, Payload, Sent};
use interp::CallEnd;
use limits::EFFECTS;

/// The greatest size of the report of one call in bytes: four numbers, 8 sends and 8 outputs.
pub const REPORT_LIMIT: usize = 1064;

/// The size of the rule and the slot of a refusal in bytes.
pub const FAULT_SIZE: usize = 16;

/// Writes sends, and answers the place after them.
fn put_sends(out: &mut [u8], at: usize, sends: &[Sent]) -> usize
    requires { at + 65 * length sends.now ≤ length out.old }
    ensures written { out.new ≡ overwritten out.old at (flat_map sent_bytes sends.now) }
    ensures end { result ≡ at + length (flat_map sent_bytes sends.now) }
    ensures size { length (flat_map sent_bytes sends.now) ≡ 65 * length sends.now }
{
    let mut end = at;
    for sent in sends {
        end = put(out, end, &[sent.dst]);
        end = put(out, end, sent.payload.view64());
    }
    end
}

/// Writes outputs, and answers the place after them.
fn put_outputs(out: &mut [u8], at: usize, outputs: &[Payload]) -> usize
    requires { at + 64 * length outputs.now ≤ length out.old }
    ensures written { out.new ≡ overwritten out.old at (flat_map view64 outputs.now) }
    ensures end { result ≡ at + length (flat_map view64 outputs.now) }
    ensures size { length (flat_map view64 outputs.now) ≡ 64 * length outputs.now }
{
    let mut end = at;
    for output in outputs {
        end = put(out, end, output.view64());
    }
    end
}

/// Writes a report from its parts, and answers the place after it.
pub fn put_parts(
    out: &mut [u8],
    at: usize,
    r0: u64,
    steps: u64,
    sends: &[Sent],
    outputs: &[Payload],
) -> usize
    requires room { at + REPORT_LIMIT ≤ length out.old }
    requires few_sends { length sends.now ≤ EFFECTS }
    requires few_outputs { length outputs.now ≤ EFFECTS }
    ensures written { out.new ≡ overwritten out.old at (report_bytes r0 steps (record { sends = sends.now; outputs = outputs.now })) }
    ensures end { result ≡ at + length (report_bytes r0 steps (record { sends = sends.now; outputs = outputs.now })) }
    ensures size { length (report_bytes r0 steps (record { sends = sends.now; outputs = outputs.now })) ≤ REPORT_LIMIT }
{
    let mut end = put_number(out, at, r0);
    end = put_number(out, end, steps);
    end = put_number(out, end, sends.len() as u64);
    end = put_number(out, end, outputs.len() as u64);
    end = put_sends(out, end, sends);
    put_outputs(out, end, outputs)
}

/// Writes the report of a call, and answers the place after it.
pub fn put_report(out: &mut [u8], at: usize, call: CallEnd, effects: &Effects) -> usize
    requires { at + REPORT_LIMIT ≤ length out.old }
    ensures written { out.new ≡ overwritten out.old at (report_bytes call.r0 call.steps effects.now) }
    ensures end { result ≡ at + length (report_bytes call.r0 call.steps effects.now) }
    ensures size { length (report_bytes call.r0 call.steps effects.now) ≤ REPORT_LIMIT }
{
    let sends = effects.sends();
    let outputs = effects.outputs();
    put_parts(out, at, call.r0, u64::from(call.steps), sends, outputs)
}

/// Writes the rule and the slot of a refusal.
pub fn put_fault(out: &mut [u8], rule: u8, slot: usize)
    requires { FAULT_SIZE ≤ length out.old }
    ensures { out.new ≡ overwritten out.old 0 (fault_bytes rule slot) }
{
    let end = put_number(out, 0, u64::from(rule));
    put_number(out, end, slot as u64);
}
