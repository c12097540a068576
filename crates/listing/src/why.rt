//! Why a register isn't set at a slot.

ghost use Rattle.std.specs.Prelude.{◌≡◌, ◌↔◌, ◌<◌, ◌+◌, ◌+ℤ◌, IfSome, IsTrue, Some, pos};
ghost use Rattle.regtypes.specs.declared.frame.Kind.{Kind};
ghost use Rattle.listing.specs.Inside.Arrives.{Arrives, LeadsTo};
ghost use Rattle.listing.specs.Why.{AreWhys, Calls, Clash, IsWhy, Leaves, Passes};

use crate::study::Study;
use decode::{Flow, Insn, Reg, flow_from};
use limits::REGISTERS;
use regtypes::{Frame, Kind, transfer};

/// Why a register isn't set.
#[derive(Clone, Copy, Debug, PartialEq, Eq)]
pub enum UnsetCause {
    /// No reason was found.
    Unknown,
    /// It is unset when a call begins, and some path from there never sets it.
    Never,
    /// The call of a helper at this slot has unset it.
    Lost(usize),
    /// The first two slots lead to the third, and what they leave in the register differs.
    Differs(usize, usize, usize),
}

/// Why a register is unset at a slot: because it is so at an earlier slot, or for a reason.
#[derive(Clone, Copy)]
enum Arrival {
    Unset(usize),
    Reason(UnsetCause),
}

/// Whether a jump by this distance leads from one slot to another.
fn jumps(from: usize, distance: i32, to: usize) -> bool
    ensures { IsTrue result ↔ (pos (from + 1) +ℤ distance ≡ pos to) }
{
    from as i128 + 1 + i128::from(distance) == to as i128
}

/// Whether an instruction leads from its slot to a later one. A conditional jump leads to two.
fn leads(flow: Flow, from: usize, to: usize) -> bool
    requires { from < to }
    ensures { IsTrue result ↔ LeadsTo flow from to }
{
    match flow {
        Flow::Ends => false,
        Flow::Leaps(distance) => jumps(from, distance, to),
        Flow::Forks(distance) => jumps(from, distance, to) || to - from == 1,
        Flow::Falls(size) => to - from == size,
    }
}

/// What an instruction leaves in a register on its way to a later slot, if it leads there. A
/// conditional jump leaves the same on both branches.
fn kind_left(study: &Study, reg: Reg, from: usize, to: usize) -> Option<Kind>
    requires { from < to }
    ensures left { IfSome result (Leaves study.now reg.number from to) }
    ensures each { (k : Kind) → Passes study.now reg.number from to k → result ≡ Some k }
{
    let insn = study.insn_at(from)?;
    // Few slots lead to this one, so this test comes first.
    if !leads(flow_from(&insn), from, to) {
        return None;
    }
    let frame = study.frame_at(from)?;
    let Ok(left) = transfer(study.form, &insn, &frame, study.state_len) else {
        return None;
    };
    Some(left.next.kind(reg))
}

/// Whether a helper is called at a slot at which the register is set.
fn calls(study: &Study, reg: Reg, slot: usize) -> bool
    ensures { IsTrue result ↔ Calls study.now reg.number slot }
{
    let (Some(insn), Some(frame)) = (study.insn_at(slot), study.frame_at(slot)) else {
        return false;
    };
    match insn {
        Insn::Call { .. } => frame.kind(reg) != Kind::Unset,
        _ => false,
    }
}

/// Whether two kinds are both set, and their join isn't.
fn clash(a: Kind, b: Kind) -> bool
    ensures { IsTrue result ↔ Clash a b }
{
    let both = matches!(a, Kind::Num | Kind::Len) && matches!(b, Kind::Num | Kind::Len);
    a != b && !both
}

/// Why an unset register is unset at a slot.
fn arrival_at(study: &Study, reg: Reg, at: usize) -> Arrival
    requires { 0 < at }
    ensures { Arrives study.now reg.number at result }
{
    let mut set: Option<(usize, Kind)> = None;
    let mut reason = UnsetCause::Unknown;
    for from in 0..at {
        match (kind_left(study, reg, from, at), set) {
            (None, _) => {}
            (Some(Kind::Unset), _) => {
                if calls(study, reg, from) {
                    return Arrival::Reason(UnsetCause::Lost(from));
                }
                return Arrival::Unset(from);
            }
            (Some(kind), None) => set = Some((from, kind)),
            (Some(kind), Some((first, had))) => {
                if clash(had, kind) {
                    reason = UnsetCause::Differs(first, from, at);
                }
            }
        }
    }
    Arrival::Reason(reason)
}

/// Why a register is unset at a slot.
fn why_of(study: &Study, reg: Reg, slot: usize) -> UnsetCause
    ensures { IsWhy study.now reg.number result slot }
{
    let mut at = slot;
    while at > 0 {
        match arrival_at(study, reg, at) {
            Arrival::Unset(from) => at = from,
            Arrival::Reason(why) => return why,
        }
    }
    if Frame::entry(study.form).kind(reg) == Kind::Unset {
        UnsetCause::Never
    } else {
        UnsetCause::Unknown
    }
}

/// For each register that is unset at a slot, why it is.
pub fn whys_at(study: &Study, slot: usize) -> [UnsetCause; REGISTERS]
    ensures { AreWhys study.now result slot }
{
    let mut whys = [UnsetCause::Unknown; REGISTERS];
    let Some(frame) = study.frame_at(slot) else {
        return whys;
    };
    for number in 0..REGISTERS as u8 {
        let reg = Reg { number };
        if frame.kind(reg) == Kind::Unset {
            whys[number as usize] = why_of(study, reg, slot);
        }
    }
    whys
}
