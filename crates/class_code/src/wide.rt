//! Opcodes 196 to 201.

ghost use Rattle.std.specs.Prelude.{◌≡◌};
ghost use Rattle.class_code.specs.Operands.{Gives};
ghost use Rattle.class_code.specs.Table.{wide_increment, widened, wide, goto_w, extended};

use crate::branch::branch;
use crate::insn::Insn;
use crate::opcode::{
    ALOAD, ASTORE, DLOAD, DSTORE, GOTO_W, IFNONNULL, IFNULL, IINC, ILOAD, ISTORE, JSR_W, LLOAD,
    LSTORE, MULTIANEWARRAY, RET, WIDE,
};
use crate::operand::{far_target_at, i2_at, u1_at, u2_at};
use crate::reference::multi_array;
use crate::refusal::Fault;
use insn_form::ValueKind;

/// iinc after wide.
#[tactic(auto, unfolding(crate::specs::Table::wide_increment))]
fn wide_increment(operands: &[u8]) -> Result<(Insn, &[u8]), Fault>
    ensures { Gives (λ x. (x.0, x.1.now)) result (wide_increment operands.now) }
{
    let (local, rest) = u2_at(operands)?;
    let (amount, rest) = i2_at(rest)?;
    Ok((Insn::Inc { local, amount }, rest))
}

/// An opcode after wide. One that is left out is so whatever follows it.
#[tactic(auto, unfolding(crate::specs::Table::widened))]
fn widened(opcode: u8, operands: &[u8]) -> Result<(Insn, &[u8]), Fault>
    ensures { Gives (λ x. (x.0, x.1.now)) result (widened opcode operands.now) }
{
    match opcode {
        ILOAD => {
            let (local, rest) = u2_at(operands)?;
            Ok((Insn::Load(ValueKind::Int, local), rest))
        }
        ALOAD => {
            let (local, rest) = u2_at(operands)?;
            Ok((Insn::Load(ValueKind::Ref, local), rest))
        }
        ISTORE => {
            let (local, rest) = u2_at(operands)?;
            Ok((Insn::Store(ValueKind::Int, local), rest))
        }
        ASTORE => {
            let (local, rest) = u2_at(operands)?;
            Ok((Insn::Store(ValueKind::Ref, local), rest))
        }
        IINC => wide_increment(operands),
        LLOAD..=DLOAD | LSTORE..=DSTORE | RET => Err(Fault::Unsupported(opcode)),
        _ => Err(Fault::BadCode),
    }
}

/// wide.
#[tactic(auto, unfolding(crate::specs::Table::wide))]
fn wide(operands: &[u8]) -> Result<(Insn, &[u8]), Fault>
    ensures { Gives (λ x. (x.0, x.1.now)) result (wide operands.now) }
{
    let (opcode, rest) = u1_at(operands)?;
    widened(opcode, rest)
}

/// goto_w.
#[tactic(auto, unfolding(crate::specs::Table::goto_w))]
fn goto_w(pc: u32, operands: &[u8]) -> Result<(Insn, &[u8]), Fault>
    ensures { Gives (λ x. (x.0, x.1.now)) result (goto_w pc operands.now) }
{
    let (target, rest) = far_target_at(pc, operands)?;
    Ok((Insn::Goto(target), rest))
}

/// wide, multianewarray, ifnull, ifnonnull and goto_w. What follows jsr_w is reserved.
#[tactic(auto, unfolding(crate::specs::Table::extended))]
pub(crate) fn extended(pc: u32, opcode: u8, operands: &[u8]) -> Result<(Insn, &[u8]), Fault>
    ensures { Gives (λ x. (x.0, x.1.now)) result (extended pc opcode operands.now) }
{
    match opcode {
        WIDE => wide(operands),
        MULTIANEWARRAY => multi_array(operands),
        IFNULL | IFNONNULL => branch(pc, opcode, operands),
        GOTO_W => goto_w(pc, operands),
        JSR_W => Err(Fault::Unsupported(opcode)),
        _ => Err(Fault::BadCode),
    }
}
