//! Opcodes 167 to 177.

ghost use Rattle.std.specs.Prelude.{◌≡◌};
ghost use Rattle.class_code.specs.Operands.{Gives};
ghost use Rattle.class_code.specs.Table.{control};

use crate::insn::Insn;
use crate::opcode::{ARETURN, GOTO, IRETURN, LOOKUPSWITCH, RETURN, TABLESWITCH};
use crate::operand::target_at;
use crate::refusal::Fault;
use crate::switch::{lookupswitch, tableswitch};
use insn_form::ValueKind;
use std::alloc::Global;

/// goto, the switches and the returns.
#[tactic(auto, unfolding(crate::specs::Table::control))]
pub(crate) fn control(
    alloc: Global,
    pc: u32,
    opcode: u8,
    operands: &[u8],
) -> Result<(Insn, &[u8]), Fault>
    ensures { Gives (λ x. (x.0, x.1.now)) result (control pc opcode operands.now) }
{
    match opcode {
        GOTO => {
            let (target, rest) = target_at(pc, operands)?;
            Ok((Insn::Goto(target), rest))
        }
        TABLESWITCH => tableswitch(alloc, pc, operands),
        LOOKUPSWITCH => lookupswitch(alloc, pc, operands),
        IRETURN => Ok((Insn::Return(Some(ValueKind::Int)), operands)),
        ARETURN => Ok((Insn::Return(Some(ValueKind::Ref)), operands)),
        RETURN => Ok((Insn::Return(None), operands)),
        _ => Err(Fault::Unsupported(opcode)),
    }
}
