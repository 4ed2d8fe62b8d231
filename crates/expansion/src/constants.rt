//! The shortest instructions that push constants.

ghost use Rattle.std.specs.Prelude.{◌≡◌};
ghost use Rattle.jvm_model.specs.ImageExpansion.{wide_constant as two_cells, narrow_constant as one_cell, int_constant as of_int, constant as of_literal};

use crate::shapes::is_one;
use body_form::Literal;
use cell_num::{low, sext};
use image_instr::{Kind, MInsn};

/// A number in two cells.
fn wide_constant(number: i32) -> MInsn
    ensures { result ≡ two_cells number }
{
    if (-128..=127).contains(&number) {
        return MInsn::Small2 {
            value: number as i8,
        };
    }
    if (-32_768..=32_767).contains(&number) {
        return MInsn::Mid2 {
            value: number as i16,
        };
    }
    MInsn::Const2 { value: number }
}

/// A number in one cell.
fn narrow_constant(number: i16) -> MInsn
    ensures { result ≡ one_cell number }
{
    if (-128..=127).contains(&number) {
        return MInsn::Small1 {
            value: number as i8,
        };
    }
    MInsn::Const1 { value: number }
}

/// A number in the cells of a shape; one cell has its low half.
fn int_constant(number: i32, shape: Kind) -> MInsn
    ensures { result ≡ of_int number shape }
{
    if is_one(shape) {
        return narrow_constant(sext(low(number)) as i16);
    }
    wide_constant(number)
}

/// A number, or null.
pub(crate) fn constant(value: Literal, shape: Kind) -> MInsn
    ensures { result ≡ of_literal value shape }
{
    match value {
        Literal::Null => MInsn::Null,
        Literal::Int(number) => int_constant(number, shape),
    }
}
