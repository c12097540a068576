//! Which of the caller's registers the code keeps on the stack.

ghost use Rattle.std.specs.Prelude.{◌≡◌, true};
ghost use Rattle.native.specs.Saved.{SaveAll, and_task, saved_in, may_write, Includes, WritesWithin};
ghost use Rattle.native.specs.Saved as specs;

use crate::prologue::Opening;
use crate::task::SlotTask;
use decode::Reg;

/// Which of the caller's registers the code saves. The handler's r5, r6, r2, r7, r8 and r9 are in rbx, rbp, r12, r13,
/// r14 and r15.
#[derive(Clone, Copy)]
pub struct SavedRegisters {
    pub rbx: bool,
    pub rbp: bool,
    pub r12: bool,
    pub r13: bool,
    pub r14: bool,
    pub r15: bool,
}

impl SavedRegisters {
    // The same, with the caller's register in which this one is.
    fn and_register(self, reg: Reg) -> SavedRegisters
        ensures value { result ≡ specs.and_register self reg.number }
        ensures writes { may_write result reg.number ≡ true }
        ensures more { Includes self result }
    {
        match reg.number {
            2 => SavedRegisters { r12: true, ..self },
            5 => SavedRegisters { rbx: true, ..self },
            6 => SavedRegisters { rbp: true, ..self },
            7 => SavedRegisters { r13: true, ..self },
            8 => SavedRegisters { r14: true, ..self },
            9 => SavedRegisters { r15: true, ..self },
            _ => self,
        }
    }

    // The same, with the register that a task writes.
    fn and_task(self, task: &SlotTask) -> SavedRegisters
        ensures value { result ≡ and_task self task.now }
        ensures writes { WritesWithin result task.now }
        ensures more { Includes self result }
    {
        match *task {
            SlotTask::Compute { dst, .. } => self.and_register(dst),
            SlotTask::Extend { dst, .. } => self.and_register(dst),
            SlotTask::Negate { dst, .. } => self.and_register(dst),
            SlotTask::Reorder { dst, .. } => self.and_register(dst),
            SlotTask::Load { dst, .. } => self.and_register(dst),
            SlotTask::LoadSx { dst, .. } => self.and_register(dst),
            SlotTask::LoadBy { dst, .. } => self.and_register(dst),
            SlotTask::LoadSxBy { dst, .. } => self.and_register(dst),
            SlotTask::Wide { dst, .. } => self.and_register(dst),
            _ => self,
        }
    }
}

/// The registers to save for these tasks.
fn saved_of(tasks: &[SlotTask]) -> SavedRegisters
    ensures value { result ≡ saved_in tasks.now }
    ensures all { SaveAll tasks.now result }
{
    let mut saved = SavedRegisters {
        rbx: false,
        rbp: false,
        r12: false,
        r13: false,
        r14: false,
        r15: false,
    };
    for task in tasks {
        saved = saved.and_task(task);
    }
    saved
}

/// The registers to save for these tasks and the code's beginning.
pub fn saved_for(opening: Opening, tasks: &[SlotTask]) -> SavedRegisters
    ensures value { result ≡ specs.saved_for opening tasks.now }
    ensures all { SaveAll tasks.now result }
{
    let saved = saved_of(tasks);
    match opening {
        Opening::Bare => saved,
        Opening::Placed => saved.and_register(Reg { number: 2 }),
    }
}
