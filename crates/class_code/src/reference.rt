//! Members, objects and arrays, opcodes 178 to 195, and multianewarray.

ghost use Rattle.std.specs.Prelude.{◌≡◌};
ghost use Rattle.class_code.specs.Operands.{Gives};
ghost use Rattle.class_code.specs.Table.{call_interface, member_insn, member, class_insn, object, multi_array};

use crate::array::new_array;
use crate::insn::Insn;
use crate::opcode::{
    ANEWARRAY, ARRAYLENGTH, ATHROW, CHECKCAST, GETFIELD, GETSTATIC, INVOKEDYNAMIC, INVOKEINTERFACE,
    INVOKESPECIAL, INVOKEVIRTUAL, MONITORENTER, MONITOREXIT, NEW, NEWARRAY, PUTFIELD, PUTSTATIC,
};
use crate::operand::{u1_at, u2_at};
use crate::refusal::Fault;

/// invokeinterface.
#[tactic(auto, unfolding(crate::specs::Table::call_interface))]
fn call_interface(operands: &[u8]) -> Result<(Insn, &[u8]), Fault>
    ensures { Gives (λ x. (x.0, x.1.now)) result (call_interface operands.now) }
{
    let (method, rest) = u2_at(operands)?;
    let (count, rest) = u1_at(rest)?;
    let (zero, rest) = u1_at(rest)?;
    if zero != 0 {
        return Err(Fault::BadCode);
    }
    Ok((Insn::CallInterface { method, count }, rest))
}

/// The instruction of an opcode that names a field or a method.
#[tactic(auto, unfolding(crate::specs::Table::member_insn))]
fn member_insn(opcode: u8, index: u16) -> Insn
    ensures { result ≡ member_insn opcode index }
{
    match opcode {
        GETSTATIC => Insn::GetStatic(index),
        PUTSTATIC => Insn::PutStatic(index),
        GETFIELD => Insn::GetField(index),
        PUTFIELD => Insn::PutField(index),
        INVOKEVIRTUAL => Insn::CallVirtual(index),
        INVOKESPECIAL => Insn::CallSpecial(index),
        _ => Insn::CallStatic(index),
    }
}

/// Fields and calls.
#[tactic(auto, unfolding(crate::specs::Table::member))]
pub(crate) fn member(opcode: u8, operands: &[u8]) -> Result<(Insn, &[u8]), Fault>
    ensures { Gives (λ x. (x.0, x.1.now)) result (member opcode operands.now) }
{
    match opcode {
        INVOKEINTERFACE => call_interface(operands),
        INVOKEDYNAMIC => Err(Fault::Unsupported(opcode)),
        _ => {
            let (index, rest) = u2_at(operands)?;
            Ok((member_insn(opcode, index), rest))
        }
    }
}

/// The instruction of an opcode that names a class.
#[tactic(auto, unfolding(crate::specs::Table::class_insn))]
fn class_insn(opcode: u8, index: u16) -> Insn
    ensures { result ≡ class_insn opcode index }
{
    match opcode {
        NEW => Insn::New(index),
        ANEWARRAY => Insn::NewRefArray(index),
        CHECKCAST => Insn::CheckCast(index),
        _ => Insn::InstanceOf(index),
    }
}

/// Objects and arrays.
#[tactic(auto, unfolding(crate::specs::Table::object))]
pub(crate) fn object(opcode: u8, operands: &[u8]) -> Result<(Insn, &[u8]), Fault>
    ensures { Gives (λ x. (x.0, x.1.now)) result (object opcode operands.now) }
{
    match opcode {
        NEWARRAY => new_array(operands),
        ARRAYLENGTH => Ok((Insn::ArrayLength, operands)),
        ATHROW => Ok((Insn::Throw, operands)),
        MONITORENTER | MONITOREXIT => Err(Fault::Unsupported(opcode)),
        _ => {
            let (index, rest) = u2_at(operands)?;
            Ok((class_insn(opcode, index), rest))
        }
    }
}

/// multianewarray.
#[tactic(auto, unfolding(crate::specs::Table::multi_array))]
pub(crate) fn multi_array(operands: &[u8]) -> Result<(Insn, &[u8]), Fault>
    ensures { Gives (λ x. (x.0, x.1.now)) result (multi_array operands.now) }
{
    let (class, rest) = u2_at(operands)?;
    let (dims, rest) = u1_at(rest)?;
    Ok((Insn::MultiArray { class, dims }, rest))
}
