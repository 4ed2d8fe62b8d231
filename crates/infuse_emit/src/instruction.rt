//! The bytes of one instruction.

ghost use Rattle.std.specs.Prelude.{◌≡◌, ◌++◌, OnOk};
ghost use Rattle.std.specs.List.{AllByRecursion};
ghost use Rattle.jvm_model.specs.ImageExpansion.{expanded, bytes_of};
ghost use Rattle.expansion.specs.Expanding.{KeepsCounts};
ghost use Rattle.expansion.specs.Seen.{IsAround, AreNumbers, rows_at, with_rows, Keeps, KeepsRows};
ghost use Rattle.infuse_emit.specs.Instruction.{Seen};

use body_form::Op;
use class_pool::Kind;
use expansion::{Around, Numbers, expand};
use image_instr::{MInsn, SwitchRow, encode};
use std::alloc::{AllocError, Global};

/// Appends the bytes of machine instructions that have these rows.
fn write_insns(
    alloc: Global,
    insns: &[MInsn],
    rows: &[SwitchRow],
    out: &mut Vec<u8>,
) -> Result<(), AllocError>
    requires { AllByRecursion Keeps (with_rows rows.now insns.now) }
    ensures { OnOk result (out.new.items ≡ out.old.items ++ bytes_of (with_rows rows.now insns.now)) }
{
    for insn in insns {
        encode(alloc, *insn, rows, out)?;
    }
    Ok(())
}

/// Appends the bytes of an instruction in a method with this result. The rows of a switch have the offsets of their
/// targets; another instruction has none.
pub fn emit_instruction(
    alloc: Global,
    around: &Around,
    numbers: Numbers,
    returned: &Option<Kind>,
    op: &Op,
    rows: &[SwitchRow],
    out: &mut Vec<u8>,
) -> Result<(), AllocError>
    ghost seen: { Seen }

    requires counts { KeepsCounts op.now }
    requires keys { KeepsRows op.now }
    requires named { AreNumbers seen.locals seen.ids seen.offset numbers op.now }
    requires looked_at { IsAround seen.point around.now op.now }
    requires moved { rows.now ≡ rows_at seen.offset op.now }

    ensures { OnOk result (out.new.items ≡ out.old.items ++ bytes_of (expanded seen.locals seen.ids seen.offset returned.now seen.point op.now)) }
{
    let mut insns = Vec::new(alloc);
    expand(around, numbers, returned, op, &mut insns)?;
    write_insns(alloc, &insns, rows, out)
}
