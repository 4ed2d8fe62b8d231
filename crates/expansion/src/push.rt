//! Machine instructions are appended.

ghost use Rattle.std.specs.Prelude.{◌≡◌, ◌++◌, OnOk};
ghost use Rattle.jvm_model.specs.ImageExpansion.{alone, alone_where, some_refs};
ghost use Rattle.expansion.specs.Expanding.{insns};

use image_instr::MInsn;
use std::alloc::AllocError;

/// Appends an instruction.
pub(crate) fn push(insn: MInsn, out: &mut Vec<MInsn>) -> Result<(), AllocError>
    ensures { OnOk result (out.new.items ≡ out.old.items ++ insns (alone insn)) }
{
    out.push(insn)?;
    Ok(())
}

/// Appends an instruction where it is wanted.
#[tactic(auto, using(crate::proofs::Appended::nothing_more))]
pub(crate) fn push_where(wanted: bool, insn: MInsn, out: &mut Vec<MInsn>) -> Result<(), AllocError>
    ensures { OnOk result (out.new.items ≡ out.old.items ++ insns (alone_where wanted insn)) }
{
    if wanted { push(insn, out) } else { Ok(()) }
}

/// Appends an instruction that has a count, unless there is nothing to count.
#[tactic(auto, using(crate::proofs::Appended::nothing_more))]
pub(crate) fn push_some(count: u8, insn: MInsn, out: &mut Vec<MInsn>) -> Result<(), AllocError>
    ensures { OnOk result (out.new.items ≡ out.old.items ++ insns (some_refs count (λ n. insn))) }
{
    if count == 0 {
        return Ok(());
    }
    push(insn, out)
}
