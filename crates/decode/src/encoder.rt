//! Instructions to bytes.

ghost use Rattle.std.specs.Prelude.{◌≡◌, ◌*◌, length, IfOk, OnOk};
ghost use Rattle.std.specs.List.{AllByRecursion};
ghost use Rattle.decode.specs.Encoding.{Fits, encoding};
ghost use Rattle.decode.specs.Slots.{slots};

use crate::insn::Insn;
use crate::word::push_word;
use std::alloc::{AllocError, Global};

/// The bytes of the instructions, eight a slot (RFC 9669 section 3). It fails only if memory runs out.
pub fn encode(alloc: Global, insns: &[Insn]) -> Result<Vec<u8>, AllocError>
    ensures ok { IfOk result (λ v. v.items ≡ encoding insns.now) }
    ensures slots { IfOk result (λ v. length v.items ≡ 8 * slots insns.now) }
    // Each number has the size of its field, so the bytes are read back as these instructions.
    ensures fits { OnOk result (AllByRecursion Fits insns.now) }
{
    let mut out = Vec::new(alloc);
    for insn in insns {
        push_word(&mut out, insn.first_word())?;
        if let Some(second) = insn.second_word() {
            push_word(&mut out, second)?;
        }
    }
    Ok(out)
}

/// How many slots the instructions take: two for a wide one, one for any other. The count of any list in memory fits.
pub fn slots(insns: &[Insn]) -> usize
    ensures { result ≡ slots insns.now }
{
    insns.iter().map(|insn| insn.slots()).sum()
}
