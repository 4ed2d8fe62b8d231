//! What each family of instructions moves.

ghost use Rattle.std.specs.Prelude.{◌≡◌, ℕ, ◌≤◌, [], ◌∷◌, ◌++◌, ◌+◌, Bool, true, false};
ghost use Rattle.image_instr.specs.Effect.{element_refs, element_cells as element_cells_of};
ghost use Rattle.jvm_model.specs.ImageExpansion.{alone, constant as constant_of, unary_of, conversion as conversion_of, return_of, cut_to_one as cut_to_one_of, read_element as read_element_of, is_small_element as is_small_element_of, element_of, write_as as write_as_of, read_as as read_as_of, kind_in as kind_in_of, test_of, width_of};
ghost use Rattle.image_instr.specs.declared.insn.MInsn.TheVariants as insns;
ghost use Rattle.flow_split.specs.Moves.{AreMoves};

use crate::kinds::{
    cut_to_one, extended, is_one, is_small, kind_in, number_cells, read_as, shape_cells, write_as,
};
use crate::moves::{Move, STILL, moved_where};
use body_form::{Literal, UnaryOp};
use cell_num::Conv;
use class_pool::Kind;
use image_instr::Kind as Shape;
use insn_form::{ElementKind, RefCond, ValueKind};

/// A constant.
pub(crate) fn constant(value: Literal, shape: Shape) -> Move
    ensures { AreMoves (alone (constant_of value shape)) (result ∷ []) }
{
    let pushes = match value {
        Literal::Null => 1,
        Literal::Int(_) if is_one(shape) => 1,
        Literal::Int(_) => 2,
    };
    Move { pops: 0, pushes }
}

/// What is computed of one int.
pub(crate) fn unary(operation: UnaryOp, before: Shape, after: Shape) -> [Move; 3]
    ensures { AreMoves (unary_of operation before after) result }
{
    match operation {
        UnaryOp::Neg => {
            let cells = number_cells(before);
            [
                Move {
                    pops: cells,
                    pushes: cells,
                },
                STILL,
                STILL,
            ]
        }
        UnaryOp::Convert(conversion) => converted(conversion, before, after),
    }
}

/// The low cell is read as a byte, a short or a char.
fn converted(conversion: Conv, before: Shape, after: Shape) -> [Move; 3]
    ensures { AreMoves (conversion_of conversion before after) result }
{
    [
        cut_to_one(true, before),
        moved_where(matches!(conversion, Conv::Byte), 1, 1),
        extended(after),
    ]
}

/// A value is returned as the method's result keeps it.
pub(crate) fn returned(kept: &Option<Kind>, shape: Shape, value: Option<ValueKind>) -> [Move; 3]
    ensures { AreMoves (return_of kept.now shape value) result }
{
    match (value, kept) {
        (Some(ValueKind::Int), Some(kind)) => {
            let (cut, narrowed) = write_as(kind, shape);
            let pops = shape_cells(kind_in(kind));
            [cut, narrowed, Move { pops, pushes: 0 }]
        }
        (Some(ValueKind::Ref), _) => [STILL, STILL, Move { pops: 1, pushes: 0 }],
        _ => [STILL, STILL, STILL],
    }
}

/// A static or a field is read, of so many objects.
pub(crate) fn read(objects: u64, kind: &Kind, shape: Shape) -> [Move; 3]
    ensures statics { objects ≡ 0 → AreMoves (alone (insns.GetS (kind_in_of kind.now) 0) ++ read_as_of kind.now shape) result }
    ensures fields { objects ≡ 1 → AreMoves (alone (insns.GetF (kind_in_of kind.now) 0) ++ read_as_of kind.now shape) result }
{
    let pushes = shape_cells(kind_in(kind));
    [
        Move {
            pops: objects,
            pushes,
        },
        read_as(kind, shape),
        STILL,
    ]
}

/// A static or a field is written, of so many objects.
pub(crate) fn written(objects: u64, kind: &Kind, shape: Shape) -> [Move; 3]
    requires { objects ≤ 1 }
    ensures statics { (place : ℕ) → objects ≡ 0 → AreMoves (write_as_of kind.now shape ++ alone (insns.PutS (kind_in_of kind.now) place)) result }
    ensures fields { (place : ℕ) → objects ≡ 1 → AreMoves (write_as_of kind.now shape ++ alone (insns.PutF (kind_in_of kind.now) place)) result }
{
    let (cut, narrowed) = write_as(kind, shape);
    let pops = objects + shape_cells(kind_in(kind));
    [cut, narrowed, Move { pops, pushes: 0 }]
}

/// How many references are tested.
pub(crate) fn tested(condition: RefCond) -> Move
    ensures { (target : ℕ) → AreMoves (alone (insns.RJ (test_of condition) target)) (result ∷ []) }
{
    let pops = match condition {
        RefCond::Eq | RefCond::Ne => 2,
        RefCond::Null | RefCond::NonNull => 1,
    };
    Move { pops, pushes: 0 }
}

/// An element that was pushed, as its shape asks for.
fn read_element(kind: ElementKind, shape: Shape) -> Move
    ensures { (boolean : Bool) → AreMoves (read_element_of kind boolean shape) (result ∷ []) }
{
    match kind {
        ElementKind::Int => moved_where(is_one(shape), 1, 0),
        ElementKind::Ref => STILL,
        ElementKind::Byte | ElementKind::Char | ElementKind::Short => extended(shape),
    }
}

/// How many cells an element has before it is extended, a reference one.
fn element_cells(kind: ElementKind) -> u64
    ensures { result ≡ element_refs (element_of kind) + element_cells_of (element_of kind) }
{
    match kind {
        ElementKind::Int => 2,
        ElementKind::Ref | ElementKind::Byte | ElementKind::Char | ElementKind::Short => 1,
    }
}

/// An element is read.
pub(crate) fn array_load(kind: ElementKind, index: Shape, after: Shape) -> [Move; 3]
    ensures { (boolean : Bool) → AreMoves (alone (insns.ALoad (element_of kind) (width_of index)) ++ read_element_of kind boolean after) result }
{
    let pops = 1 + number_cells(index);
    let pushes = element_cells(kind);
    [Move { pops, pushes }, read_element(kind, after), STILL]
}

/// A small type is written.
fn is_small_element(kind: ElementKind) -> bool
    ensures { result ≡ is_small_element_of kind }
{
    !matches!(kind, ElementKind::Int | ElementKind::Ref)
}

/// An element is written.
pub(crate) fn array_store(kind: ElementKind, value: Shape, index: Shape) -> [Move; 3]
    ensures { AreMoves (cut_to_one_of (is_small_element_of kind) value ++ alone (insns.AStore (element_of kind) (width_of index))) result }
{
    let pops = 1 + element_cells(kind) + number_cells(index);
    [
        cut_to_one(is_small_element(kind), value),
        Move { pops, pushes: 0 },
        STILL,
    ]
}
