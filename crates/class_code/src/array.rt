//! Loads and stores of array elements, opcodes 46 to 53 and 79 to 86, and newarray.

ghost use Rattle.std.specs.Prelude.{◌≡◌};
ghost use Rattle.class_code.specs.Operands.{Gives};
ghost use Rattle.class_code.specs.Table.{array_load, array_store, array_kind, new_array};

use crate::insn::{ArrayKind, Insn};
use crate::opcode::{
    AALOAD, AASTORE, BALOAD, BASTORE, CALOAD, CASTORE, IALOAD, IASTORE, NEWARRAY, SALOAD, SASTORE,
};
use crate::operand::u1_at;
use crate::refusal::Fault;
use insn_form::ElementKind;

// The elements of arrays of primitives, by the names of JVMS table 6.5.newarray-A.
const T_BOOLEAN: u8 = 4;

const T_CHAR: u8 = 5;

const T_FLOAT: u8 = 6;

const T_DOUBLE: u8 = 7;

const T_BYTE: u8 = 8;

const T_SHORT: u8 = 9;

const T_INT: u8 = 10;

const T_LONG: u8 = 11;

/// iaload, aaload, baload, caload, saload.
#[tactic(auto, unfolding(crate::specs::Table::array_load))]
pub(crate) fn array_load(opcode: u8, operands: &[u8]) -> Result<(Insn, &[u8]), Fault>
    ensures { Gives (λ x. (x.0, x.1.now)) result (array_load opcode operands.now) }
{
    match opcode {
        IALOAD => Ok((Insn::ArrayLoad(ElementKind::Int), operands)),
        AALOAD => Ok((Insn::ArrayLoad(ElementKind::Ref), operands)),
        BALOAD => Ok((Insn::ArrayLoad(ElementKind::Byte), operands)),
        CALOAD => Ok((Insn::ArrayLoad(ElementKind::Char), operands)),
        SALOAD => Ok((Insn::ArrayLoad(ElementKind::Short), operands)),
        _ => Err(Fault::Unsupported(opcode)),
    }
}

/// iastore, aastore, bastore, castore, sastore.
#[tactic(auto, unfolding(crate::specs::Table::array_store))]
pub(crate) fn array_store(opcode: u8, operands: &[u8]) -> Result<(Insn, &[u8]), Fault>
    ensures { Gives (λ x. (x.0, x.1.now)) result (array_store opcode operands.now) }
{
    match opcode {
        IASTORE => Ok((Insn::ArrayStore(ElementKind::Int), operands)),
        AASTORE => Ok((Insn::ArrayStore(ElementKind::Ref), operands)),
        BASTORE => Ok((Insn::ArrayStore(ElementKind::Byte), operands)),
        CASTORE => Ok((Insn::ArrayStore(ElementKind::Char), operands)),
        SASTORE => Ok((Insn::ArrayStore(ElementKind::Short), operands)),
        _ => Err(Fault::Unsupported(opcode)),
    }
}

/// The elements that a number names (JVMS table 6.5.newarray-A). Those of float, double and long are
/// left out.
#[tactic(auto, unfolding(crate::specs::Table::array_kind))]
fn array_kind(code: u8) -> Result<ArrayKind, Fault>
    ensures { Gives (λ x. x) result (array_kind code) }
{
    match code {
        T_BOOLEAN => Ok(ArrayKind::Boolean),
        T_CHAR => Ok(ArrayKind::Char),
        T_BYTE => Ok(ArrayKind::Byte),
        T_SHORT => Ok(ArrayKind::Short),
        T_INT => Ok(ArrayKind::Int),
        T_FLOAT | T_DOUBLE | T_LONG => Err(Fault::Unsupported(NEWARRAY)),
        _ => Err(Fault::BadCode),
    }
}

/// newarray.
#[tactic(auto, unfolding(crate::specs::Table::new_array))]
pub(crate) fn new_array(operands: &[u8]) -> Result<(Insn, &[u8]), Fault>
    ensures { Gives (λ x. (x.0, x.1.now)) result (new_array operands.now) }
{
    let (code, rest) = u1_at(operands)?;
    let kind = array_kind(code)?;
    Ok((Insn::NewArray(kind), rest))
}
