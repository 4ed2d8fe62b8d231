//! The instruction at the prefix of some bytes (JVMS 6.5).

ghost use Rattle.std.specs.Prelude.{◌≡◌};
ghost use Rattle.class_code.specs.Operands.{Gives};
ghost use Rattle.class_code.specs.Table.{by_opcode, insn_at};

use crate::array::{array_load, array_store};
use crate::branch::branch;
use crate::constant::constant;
use crate::control::control;
use crate::insn::Insn;
use crate::local::{load, store};
use crate::math::{conversion, math};
use crate::opcode::{
    ALOAD_3, ASTORE_3, DCMPG, IF_ACMPNE, IINC, INVOKEDYNAMIC, LDC2_W, MONITOREXIT, RETURN, SALOAD,
    SASTORE, SWAP,
};
use crate::reference::{member, object};
use crate::refusal::Fault;
use crate::stack::stack_form;
use crate::wide::extended;
use std::alloc::Global;

/// The instruction of an opcode, by its family.
#[tactic(auto, unfolding(crate::specs::Table::by_opcode))]
fn by_opcode(alloc: Global, pc: u32, opcode: u8, operands: &[u8]) -> Result<(Insn, &[u8]), Fault>
    ensures { Gives (λ x. (x.0, x.1.now)) result (by_opcode pc opcode operands.now) }
{
    match opcode {
        ..=LDC2_W => constant(opcode, operands),
        ..=ALOAD_3 => load(opcode, operands),
        ..=SALOAD => array_load(opcode, operands),
        ..=ASTORE_3 => store(opcode, operands),
        ..=SASTORE => array_store(opcode, operands),
        ..=SWAP => Ok((Insn::Stack(stack_form(opcode)), operands)),
        ..=IINC => math(opcode, operands),
        ..=DCMPG => conversion(opcode, operands),
        ..=IF_ACMPNE => branch(pc, opcode, operands),
        ..=RETURN => control(alloc, pc, opcode, operands),
        ..=INVOKEDYNAMIC => member(opcode, operands),
        ..=MONITOREXIT => object(opcode, operands),
        _ => extended(pc, opcode, operands),
    }
}

/// The instruction at the prefix of the bytes, which begin at `pc`, and the bytes after it.
#[tactic(auto, unfolding(crate::specs::Table::insn_at))]
pub(crate) fn insn_at(alloc: Global, pc: u32, bytes: &[u8]) -> Result<(Insn, &[u8]), Fault>
    ensures { Gives (λ x. (x.0, x.1.now)) result (insn_at pc bytes.now) }
{
    match bytes {
        [] => Err(Fault::BadCode),
        [opcode, operands @ ..] => by_opcode(alloc, pc, *opcode, operands),
    }
}
