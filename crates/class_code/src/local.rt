//! Loads and stores of locals, opcodes 21 to 45 and 54 to 78.

ghost use Rattle.std.specs.Prelude.{◌≤◌};
ghost use Rattle.class_code.specs.Operands.{Gives};
ghost use Rattle.class_code.specs.Table.{load, store};

use crate::insn::Insn;
use crate::opcode::{
    ALOAD, ALOAD_0, ALOAD_3, ASTORE, ASTORE_0, ASTORE_3, ILOAD, ILOAD_0, ILOAD_3, ISTORE, ISTORE_0,
    ISTORE_3,
};
use crate::operand::u1_at;
use crate::refusal::Fault;
use insn_form::ValueKind;

/// iload and aload in all forms but that after wide.
#[tactic(auto, unfolding(crate::specs::Table::load))]
pub(crate) fn load(opcode: u8, operands: &[u8]) -> Result<(Insn, &[u8]), Fault>
    ensures { Gives (λ x. (x.0, x.1.now)) result (load opcode operands.now) }
{
    match opcode {
        ILOAD => {
            let (local, rest) = u1_at(operands)?;
            Ok((Insn::Load(ValueKind::Int, u16::from(local)), rest))
        }
        ALOAD => {
            let (local, rest) = u1_at(operands)?;
            Ok((Insn::Load(ValueKind::Ref, u16::from(local)), rest))
        }
        ILOAD_0..=ILOAD_3 => Ok((
            Insn::Load(ValueKind::Int, u16::from(opcode - ILOAD_0)),
            operands,
        )),
        ALOAD_0..=ALOAD_3 => Ok((
            Insn::Load(ValueKind::Ref, u16::from(opcode - ALOAD_0)),
            operands,
        )),
        _ => Err(Fault::Unsupported(opcode)),
    }
}

/// istore and astore in all forms but that after wide.
#[tactic(auto, unfolding(crate::specs::Table::store))]
pub(crate) fn store(opcode: u8, operands: &[u8]) -> Result<(Insn, &[u8]), Fault>
    ensures { Gives (λ x. (x.0, x.1.now)) result (store opcode operands.now) }
{
    match opcode {
        ISTORE => {
            let (local, rest) = u1_at(operands)?;
            Ok((Insn::Store(ValueKind::Int, u16::from(local)), rest))
        }
        ASTORE => {
            let (local, rest) = u1_at(operands)?;
            Ok((Insn::Store(ValueKind::Ref, u16::from(local)), rest))
        }
        ISTORE_0..=ISTORE_3 => Ok((
            Insn::Store(ValueKind::Int, u16::from(opcode - ISTORE_0)),
            operands,
        )),
        ASTORE_0..=ASTORE_3 => Ok((
            Insn::Store(ValueKind::Ref, u16::from(opcode - ASTORE_0)),
            operands,
        )),
        _ => Err(Fault::Unsupported(opcode)),
    }
}
