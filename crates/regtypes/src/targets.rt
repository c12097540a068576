//! The rules on where an instruction leads.

ghost use Rattle.std.specs.Prelude.{◌≡◌, ◌≤◌, ◌<◌, ◌+◌, MatchResult, length, is_some, pos, ◌+ℤ◌, Some, None};
ghost use Rattle.decode.specs.Slots.{insn_at};
ghost use Rattle.regtypes.specs.Rules.{first_broken};
ghost use Rattle.regtypes.specs.Typing.{is_target, flow_tests};

use crate::rule::Rule;
use decode::{Flow, Insn};
use limits::SLOTS;

/// Whether an instruction begins at a slot.
fn begins(slots: &[Option<Insn>], slot: usize) -> bool
    ensures { result ≡ is_some (insn_at slots.now slot) }
{
    slot < slots.len() && slots[slot].is_some()
}

/// Whether a jump leads to a later slot in which an instruction begins.
fn is_target(slots: &[Option<Insn>], slot: usize, distance: i32) -> bool
    requires { slot < SLOTS }
    ensures { result ≡ is_target slots.now slot (pos (slot + 1) +ℤ distance) }
{
    distance >= 0 && begins(slots, slot + 1 + distance as usize)
}

/// The rules on where an instruction leads. V1: a jump goes to an instruction that begins at a later slot. V2: after
/// any other instruction, and after a conditional jump, there is a slot.
pub fn leads(slots: &[Option<Insn>], slot: usize, flow: &Flow) -> Result<(), Rule>
    requires short { slot < SLOTS }
    requires within { slot < length slots.now }
    ensures { MatchResult result (λ _. first_broken (flow_tests slots.now slot flow.now) ≡ None) (λ r. first_broken (flow_tests slots.now slot flow.now) ≡ Some r) }
{
    match *flow {
        Flow::Ends => {}
        Flow::Leaps(distance) => {
            if !is_target(slots, slot, distance) {
                return Err(Rule::V1);
            }
        }
        Flow::Forks(distance) => {
            if !is_target(slots, slot, distance) {
                return Err(Rule::V1);
            }
            if slot + 1 >= slots.len() {
                return Err(Rule::V2);
            }
        }
        Flow::Falls(size) => {
            if size >= slots.len() - slot {
                return Err(Rule::V2);
            }
        }
    }
    Ok(())
}
