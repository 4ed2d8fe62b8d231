//! Whole numbers, opcodes 96 to 152.

ghost use Rattle.std.specs.Prelude.{◌≡◌};
ghost use Rattle.class_code.specs.Operands.{Gives};
ghost use Rattle.class_code.specs.Table.{operation, increment, math, conversion};

use crate::insn::Insn;
use crate::opcode::{
    I2B, I2C, I2S, IADD, IAND, IDIV, IINC, IMUL, INEG, IOR, IREM, ISHL, ISHR, ISUB, IUSHR, IXOR,
};
use crate::operand::{i1_at, u1_at};
use crate::refusal::Fault;
use cell_num::{BinOp, Conv};

/// The operation of an opcode that has two operands, both ints.
#[tactic(auto, unfolding(crate::specs::Table::operation))]
fn operation(opcode: u8) -> Option<BinOp>
    ensures { result ≡ operation opcode }
{
    match opcode {
        IADD => Some(BinOp::Add),
        ISUB => Some(BinOp::Sub),
        IMUL => Some(BinOp::Mul),
        IDIV => Some(BinOp::Div),
        IREM => Some(BinOp::Rem),
        ISHL => Some(BinOp::Shl),
        ISHR => Some(BinOp::Shr),
        IUSHR => Some(BinOp::Ushr),
        IAND => Some(BinOp::And),
        IOR => Some(BinOp::Or),
        IXOR => Some(BinOp::Xor),
        _ => None,
    }
}

/// iinc.
#[tactic(auto, unfolding(crate::specs::Table::increment))]
fn increment(operands: &[u8]) -> Result<(Insn, &[u8]), Fault>
    ensures { Gives (λ x. (x.0, x.1.now)) result (increment operands.now) }
{
    let (local, rest) = u1_at(operands)?;
    let (amount, rest) = i1_at(rest)?;
    let insn = Insn::Inc {
        local: u16::from(local),
        amount: i16::from(amount),
    };
    Ok((insn, rest))
}

/// iadd to ixor, ineg among them, and iinc.
#[tactic(auto, unfolding(crate::specs::Table::math))]
pub(crate) fn math(opcode: u8, operands: &[u8]) -> Result<(Insn, &[u8]), Fault>
    ensures { Gives (λ x. (x.0, x.1.now)) result (math opcode operands.now) }
{
    match opcode {
        INEG => Ok((Insn::Neg, operands)),
        IINC => increment(operands),
        _ => match operation(opcode) {
            Some(operation) => Ok((Insn::Bin(operation), operands)),
            None => Err(Fault::Unsupported(opcode)),
        },
    }
}

/// i2b, i2c, i2s.
#[tactic(auto, unfolding(crate::specs::Table::conversion))]
pub(crate) fn conversion(opcode: u8, operands: &[u8]) -> Result<(Insn, &[u8]), Fault>
    ensures { Gives (λ x. (x.0, x.1.now)) result (conversion opcode operands.now) }
{
    match opcode {
        I2B => Ok((Insn::Convert(Conv::Byte), operands)),
        I2C => Ok((Insn::Convert(Conv::Char), operands)),
        I2S => Ok((Insn::Convert(Conv::Short), operands)),
        _ => Err(Fault::Unsupported(opcode)),
    }
}
