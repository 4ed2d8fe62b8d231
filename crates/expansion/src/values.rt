//! Values of one cell and of two: what is read is made as wide as it is wanted, and what is written is narrowed to its
//! type.

ghost use Rattle.std.specs.Prelude.{◌≡◌, ◌++◌, Some, OnOk};
ghost use Rattle.jvm_model.specs.ImageExpansion.{extend as extended, read_as as read_by, cut_to_one as cut, narrow_cell as narrowed, write_as as written_by, conversion as converted, unary_of, return_of};
ghost use Rattle.expansion.specs.Expanding.{insns};

use crate::kinds::{is_small, kind_in};
use crate::push::{push, push_where};
use crate::shapes::{is_one, is_two, width_of};
use body_form::UnaryOp;
use cell_num::Conv;
use class_pool::Kind as DeclaredKind;
use image_instr::{Kind, MInsn};
use insn_form::ValueKind;
use std::alloc::AllocError;

/// Appends what extends one cell, by zero or by sign, where two are wanted.
pub(crate) fn extend(unsigned: bool, shape: Kind, out: &mut Vec<MInsn>) -> Result<(), AllocError>
    ensures { OnOk result (out.new.items ≡ out.old.items ++ insns (extended unsigned shape)) }
{
    if unsigned {
        push_where(is_two(shape), MInsn::Zx, out)
    } else {
        push_where(is_two(shape), MInsn::Sx, out)
    }
}

/// Appends what makes a value that was pushed as its type keeps it as wide as it is wanted.
#[tactic(auto, using(crate::proofs::Appended::nothing_more))]
pub(crate) fn read_as(
    kind: &DeclaredKind,
    shape: Kind,
    out: &mut Vec<MInsn>,
) -> Result<(), AllocError>
    ensures { OnOk result (out.new.items ≡ out.old.items ++ insns (read_by kind.now shape)) }
{
    match kind {
        DeclaredKind::Int => push_where(is_one(shape), MInsn::Pop { count: 1 }, out),
        DeclaredKind::Char | DeclaredKind::Boolean => extend(true, shape, out),
        DeclaredKind::Byte | DeclaredKind::Short => extend(false, shape, out),
        DeclaredKind::Double
        | DeclaredKind::Float
        | DeclaredKind::Long
        | DeclaredKind::Class(_)
        | DeclaredKind::Array { .. } => Ok(()),
    }
}

/// Appends what cuts two cells to the low one, where a small type is wanted.
pub(crate) fn cut_to_one(small: bool, shape: Kind, out: &mut Vec<MInsn>) -> Result<(), AllocError>
    ensures { OnOk result (out.new.items ≡ out.old.items ++ insns (cut small shape)) }
{
    push_where(small && is_two(shape), MInsn::Pop { count: 1 }, out)
}

/// Appends what narrows a cell to a byte or a boolean.
#[tactic(auto, using(crate::proofs::Appended::nothing_more))]
fn narrow_cell(kind: &DeclaredKind, out: &mut Vec<MInsn>) -> Result<(), AllocError>
    ensures { OnOk result (out.new.items ≡ out.old.items ++ insns (narrowed kind.now)) }
{
    match kind {
        DeclaredKind::Byte => push(MInsn::Sb, out),
        DeclaredKind::Boolean => push(MInsn::Bit, out),
        DeclaredKind::Char
        | DeclaredKind::Short
        | DeclaredKind::Int
        | DeclaredKind::Double
        | DeclaredKind::Float
        | DeclaredKind::Long
        | DeclaredKind::Class(_)
        | DeclaredKind::Array { .. } => Ok(()),
    }
}

/// Appends what makes a value one that its type keeps.
#[tactic(auto, using(crate::proofs::Appended::both))]
pub(crate) fn write_as(
    kind: &DeclaredKind,
    shape: Kind,
    out: &mut Vec<MInsn>,
) -> Result<(), AllocError>
    ensures { OnOk result (out.new.items ≡ out.old.items ++ insns (written_by kind.now shape)) }
{
    cut_to_one(is_small(kind), shape, out)?;
    narrow_cell(kind, out)
}

/// Appends what reads the low cell as a byte, a short or a char.
#[tactic(auto, using(crate::proofs::Appended::both))]
fn conversion(conv: Conv, before: Kind, after: Kind, out: &mut Vec<MInsn>) -> Result<(), AllocError>
    ensures { OnOk result (out.new.items ≡ out.old.items ++ insns (converted conv before after)) }
{
    cut_to_one(true, before, out)?;
    match conv {
        Conv::Byte => {
            push(MInsn::Sb, out)?;
            extend(false, after, out)
        }
        Conv::Short => extend(false, after, out),
        Conv::Char => extend(true, after, out),
    }
}

/// Appends an operation on one number.
pub(crate) fn unary(
    operation: UnaryOp,
    before: Kind,
    after: Kind,
    out: &mut Vec<MInsn>,
) -> Result<(), AllocError>
    ensures { OnOk result (out.new.items ≡ out.old.items ++ insns (unary_of operation before after)) }
{
    match operation {
        UnaryOp::Neg => push(
            MInsn::Neg {
                width: width_of(before),
            },
            out,
        ),
        UnaryOp::Convert(conv) => conversion(conv, before, after, out),
    }
}

/// Appends the return of a whole number, as the type of the result keeps it.
#[tactic(auto, using(crate::proofs::Appended::both))]
fn return_number(kind: &DeclaredKind, shape: Kind, out: &mut Vec<MInsn>) -> Result<(), AllocError>
    ensures { OnOk result (out.new.items ≡ out.old.items ++ insns (return_of (Some kind.now) shape (Some ValueKind.Int))) }
{
    write_as(kind, shape, out)?;
    push(
        MInsn::Ret {
            result: Some(kind_in(kind)),
        },
        out,
    )
}

/// Appends a return from a method with this result.
#[tactic(auto, using(crate::proofs::Appended::nothing_more))]
pub(crate) fn returning(
    returned: &Option<DeclaredKind>,
    shape: Kind,
    value: Option<ValueKind>,
    out: &mut Vec<MInsn>,
) -> Result<(), AllocError>
    ensures { OnOk result (out.new.items ≡ out.old.items ++ insns (return_of returned.now shape value)) }
{
    match value {
        None => push(MInsn::Ret { result: None }, out),
        Some(ValueKind::Ref) => push(
            MInsn::Ret {
                result: Some(Kind::Ref),
            },
            out,
        ),
        Some(ValueKind::Int) => match returned {
            Some(kind) => return_number(kind, shape, out),
            None => Ok(()),
        },
    }
}
