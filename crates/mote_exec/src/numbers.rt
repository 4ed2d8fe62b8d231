//! Arithmetic on numbers of one cell or two.

ghost use Rattle.image_instr.specs.declared.insn.MInsn.TheVariants as insns;
ghost use Rattle.std.specs.Prelude.{◌≡◌};
ghost use Rattle.mote_model.specs.Numbers.{op_of};
ghost use Rattle.split_safety.specs.Ready.{Shown};
ghost use Rattle.mote_exec.specs.Steps.{IsStep, GoesTo};

use crate::halves::{cell_count, number_below, put_number};
use cell_num::{BinOp, apply};
use image_instr::{Operation, Width};
use mote_model::{State, Turn};

/// The class of what a zero divisor throws.
const ARITHMETIC_EXCEPTION: u16 = 4;

/// The operation on ints that an instruction names.
fn operator(operation: Operation) -> BinOp
    ensures { result ≡ op_of operation }
{
    match operation {
        Operation::Add => BinOp::Add,
        Operation::Sub => BinOp::Sub,
        Operation::Mul => BinOp::Mul,
        Operation::Div => BinOp::Div,
        Operation::Rem => BinOp::Rem,
        Operation::Shl => BinOp::Shl,
        Operation::Shr => BinOp::Shr,
        Operation::Ushr => BinOp::Ushr,
        Operation::And => BinOp::And,
        Operation::Or => BinOp::Or,
        Operation::Xor => BinOp::Xor,
    }
}

/// Replaces the two numbers on top by what an operation gives of them. A zero divisor throws.
pub fn binary(mote: &mut State, next: u16, width: Width, operation: Operation) -> Turn
    ghost shown: { Shown }

    requires { IsStep shown mote.old (insns.Bin width operation) next }
    ensures { GoesTo shown mote.old mote.new result }
{
    let count = cell_count(width);
    let right = number_below(&mote.region, width, 0);
    let left = number_below(&mote.region, width, count);
    match apply(operator(operation), left, right) {
        Some(number) => put_number(mote, next, 2 * count, width, number),
        None => Turn::Throws {
            class: ARITHMETIC_EXCEPTION,
        },
    }
}

/// Negates the number on top.
pub fn negate(mote: &mut State, next: u16, width: Width) -> Turn
    ghost shown: { Shown }

    requires { IsStep shown mote.old (insns.Neg width) next }
    ensures { GoesTo shown mote.old mote.new result }
{
    let number = number_below(&mote.region, width, 0);
    put_number(mote, next, cell_count(width), width, number.wrapping_neg())
}
