//! How many cells values take, and how declared types are read and written.

ghost use Rattle.std.specs.Prelude.{◌≡◌, ◌+◌, true, false, [], ◌∷◌};
ghost use Rattle.class_pool.specs.declared.descriptor.Kind.TheVariants as declared;
ghost use Rattle.image_instr.specs.Effect.{refs_of, cells_of, cells_in as cells_in_width};
ghost use Rattle.jvm_model.specs.WidthsSlots.{is_small as is_small_of};
ghost use Rattle.jvm_model.specs.ImageExpansion.{is_one as is_one_of, is_two as is_two_of, kind_in as kind_in_of, width_of, read_as as read_as_of, write_as as write_as_of, extend as extend_of, cut_to_one as cut_to_one_of, narrow_cell as narrow_cell_of};
ghost use Rattle.flow_split.specs.Moves.{AreMoves};

use crate::moves::{Move, moved_where};
use class_pool::Kind;
use image_instr::{Kind as Shape, Width};

/// How many cells a number of a width has.
pub(crate) fn width_cells(width: Width) -> u64
    ensures { result ≡ cells_in_width width }
{
    match width {
        Width::One => 1,
        Width::Two => 2,
    }
}

/// How many cells a value has, a reference one.
pub(crate) fn shape_cells(shape: Shape) -> u64
    ensures { result ≡ refs_of shape + cells_of shape }
{
    match shape {
        Shape::Ref | Shape::One => 1,
        Shape::Two => 2,
    }
}

/// How many cells a whole number has.
pub(crate) fn number_cells(shape: Shape) -> u64
    ensures { result ≡ cells_in_width (width_of shape) }
{
    match shape {
        Shape::One => 1,
        Shape::Ref | Shape::Two => 2,
    }
}

pub(crate) fn is_one(shape: Shape) -> bool
    ensures { result ≡ is_one_of shape }
{
    matches!(shape, Shape::One)
}

pub(crate) fn is_two(shape: Shape) -> bool
    ensures { result ≡ is_two_of shape }
{
    matches!(shape, Shape::Two)
}

/// A type of one cell.
pub(crate) fn is_small(kind: &Kind) -> bool
    ensures { result ≡ is_small_of kind.now }
{
    matches!(kind, Kind::Byte | Kind::Char | Kind::Short | Kind::Boolean)
}

/// What a declared type is kept in.
pub(crate) fn kind_in(kind: &Kind) -> Shape
    ensures { result ≡ kind_in_of kind.now }
{
    match kind {
        Kind::Int => Shape::Two,
        Kind::Byte | Kind::Char | Kind::Short | Kind::Boolean => Shape::One,
        _ => Shape::Ref,
    }
}

/// One cell that was pushed is extended where two stand for the value.
pub(crate) fn extended(shape: Shape) -> Move
    ensures by_zero { AreMoves (extend_of true shape) (result ∷ []) }
    ensures by_sign { AreMoves (extend_of false shape) (result ∷ []) }
{
    moved_where(is_two(shape), 1, 2)
}

/// What is pushed of a declared type, as the shape asks for.
pub(crate) fn read_as(kind: &Kind, shape: Shape) -> Move
    ensures { AreMoves (read_as_of kind.now shape) (result ∷ []) }
{
    match kind {
        Kind::Int => moved_where(is_one(shape), 1, 0),
        Kind::Byte | Kind::Char | Kind::Short | Kind::Boolean => extended(shape),
        _ => moved_where(false, 0, 0),
    }
}

/// Two cells are cut to the low one where a small type is asked for.
pub(crate) fn cut_to_one(small: bool, shape: Shape) -> Move
    ensures { AreMoves (cut_to_one_of small shape) (result ∷ []) }
{
    moved_where(small && is_two(shape), 1, 0)
}

/// What is kept of a cell that is written.
fn narrowed(kind: &Kind) -> Move
    ensures { AreMoves (narrow_cell_of kind.now) (result ∷ []) }
{
    moved_where(matches!(kind, Kind::Byte | Kind::Boolean), 1, 1)
}

/// What is written as a declared type.
pub(crate) fn write_as(kind: &Kind, shape: Shape) -> (Move, Move)
    ensures { AreMoves (write_as_of kind.now shape) (result.0 ∷ result.1 ∷ []) }
{
    (cut_to_one(is_small(kind), shape), narrowed(kind))
}
