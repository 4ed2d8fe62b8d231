//! Opcodes 0 to 20.

ghost use Rattle.std.specs.Prelude.{◌≤◌};
ghost use Rattle.class_code.specs.Operands.{Gives};
ghost use Rattle.class_code.specs.Table.{constant};

use crate::insn::Insn;
use crate::opcode::{ACONST_NULL, BIPUSH, ICONST_0, ICONST_5, ICONST_M1, LDC, LDC_W, NOP, SIPUSH};
use crate::operand::{i1_at, i2_at, u1_at, u2_at};
use crate::refusal::Fault;

/// nop, and the instructions that push a constant.
#[tactic(auto, unfolding(crate::specs::Table::constant))]
pub(crate) fn constant(opcode: u8, operands: &[u8]) -> Result<(Insn, &[u8]), Fault>
    ensures { Gives (λ x. (x.0, x.1.now)) result (constant opcode operands.now) }
{
    match opcode {
        NOP => Ok((Insn::Nop, operands)),
        ACONST_NULL => Ok((Insn::Null, operands)),
        ICONST_M1..=ICONST_5 => Ok((
            Insn::Push(i32::from(opcode) - i32::from(ICONST_0)),
            operands,
        )),
        BIPUSH => {
            let (value, rest) = i1_at(operands)?;
            Ok((Insn::Push(i32::from(value)), rest))
        }
        SIPUSH => {
            let (value, rest) = i2_at(operands)?;
            Ok((Insn::Push(i32::from(value)), rest))
        }
        LDC => {
            let (index, rest) = u1_at(operands)?;
            Ok((Insn::Ldc(u16::from(index)), rest))
        }
        LDC_W => {
            let (index, rest) = u2_at(operands)?;
            Ok((Insn::Ldc(index), rest))
        }
        _ => Err(Fault::Unsupported(opcode)),
    }
}
