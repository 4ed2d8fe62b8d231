//! What the instructions that move operands do (JVMS 6.5, pop to swap).

ghost use Rattle.std.specs.Prelude.{◌≡◌, ◌+◌, ◌≤◌, List, [], ◌∷◌, take, drop};
ghost use Rattle.image_instr.specs.declared.insn.Kind.{Kind as Value};
ghost use Rattle.jvm_model.specs.ImageExpansion.{remove, copy, restack, exchange, top_of, second_of};
ghost use Rattle.flow_split.specs.Moves.{AreMoves};
ghost use Rattle.flow_split.specs.Rooms.{IsRoom};

use crate::moves::{Move, STILL, moved_where};
use image_instr::Kind as Shape;
use insn_form::StackForm;

/// Some operands: how many are references, and how many cells the others take.
#[derive(Clone, Copy, Debug)]
pub(crate) struct Room {
    pub(crate) refs: u64,
    pub(crate) cells: u64,
}

/// No operands.
const NO_ROOM: Room = Room { refs: 0, cells: 0 };

/// The operand at a position, if there is one.
fn room_at(shapes: &[Shape], position: usize) -> Room
    ensures is { IsRoom result (take 1 (drop position shapes.now)) }
    ensures small { (result.refs ≤ 1) × (result.cells ≤ 2) }
{
    match shapes.get(position) {
        Some(Shape::Ref) => Room { refs: 1, cells: 0 },
        Some(Shape::One) => Room { refs: 0, cells: 1 },
        Some(Shape::Two) => Room { refs: 0, cells: 2 },
        None => NO_ROOM,
    }
}

/// The two operands from a position on, as many as there are.
fn rooms_at(shapes: &[Shape], position: usize) -> Room
    requires { position ≤ 2 }
    ensures is { IsRoom result (take 2 (drop position shapes.now)) }
    ensures small { (result.refs ≤ 2) × (result.cells ≤ 4) }
{
    let top = room_at(shapes, position);
    let below = room_at(shapes, position + 1);
    Room {
        refs: top.refs + below.refs,
        cells: top.cells + below.cells,
    }
}

/// Operands are removed.
fn removed(room: Room) -> [Move; 3]
    ensures { (shapes : List Value) → IsRoom room shapes → AreMoves (remove shapes) result }
{
    [
        moved_where(room.refs != 0, room.refs, 0),
        moved_where(room.cells != 0, room.cells, 0),
        STILL,
    ]
}

/// Operands are copied below others.
fn copied(top: Room, below: Room) -> [Move; 3]
    requires top { (top.refs ≤ 2) × (top.cells ≤ 4) }
    requires below { (below.refs ≤ 2) × (below.cells ≤ 4) }
    ensures { (above under : List Value) → IsRoom top above → IsRoom below under → AreMoves (copy above under) result }
{
    let refs = top.refs + below.refs;
    let cells = top.cells + below.cells;
    [
        moved_where(top.refs != 0, refs, refs + top.refs),
        moved_where(top.cells != 0, cells, cells + top.cells),
        STILL,
    ]
}

/// The two top operands are exchanged.
fn exchanged(top: Shape, below: Shape) -> [Move; 3]
    ensures { AreMoves (exchange top below) result }
{
    let cells = match (top, below) {
        (Shape::Ref, Shape::Ref) => 2,
        (Shape::Ref, _) | (_, Shape::Ref) => 0,
        (Shape::One, Shape::One) => 2,
        (Shape::Two, Shape::Two) => 4,
        (Shape::One, Shape::Two) | (Shape::Two, Shape::One) => 3,
    };
    [
        Move {
            pops: cells,
            pushes: cells,
        },
        STILL,
        STILL,
    ]
}

/// The shape of the top operand, that of a reference where there is none.
pub(crate) fn top(shapes: &[Shape]) -> Shape
    ensures { result ≡ top_of shapes.now }
{
    shapes.first().copied().unwrap_or(Shape::Ref)
}

/// The shape of the operand below the top one.
pub(crate) fn second(shapes: &[Shape]) -> Shape
    ensures { result ≡ second_of shapes.now }
{
    shapes.get(1).copied().unwrap_or(Shape::Ref)
}

/// What an instruction that moves operands does, by the shapes of the top ones, four at most.
pub(crate) fn restacked(form: StackForm, shapes: &[Shape]) -> [Move; 3]
    ensures { AreMoves (restack form shapes.now) result }
{
    match form {
        StackForm::Pop => removed(room_at(shapes, 0)),
        StackForm::Pop2 => removed(rooms_at(shapes, 0)),
        StackForm::Dup => copied(room_at(shapes, 0), NO_ROOM),
        StackForm::DupX1 => copied(room_at(shapes, 0), room_at(shapes, 1)),
        StackForm::DupX2 => copied(room_at(shapes, 0), rooms_at(shapes, 1)),
        StackForm::Dup2 => copied(rooms_at(shapes, 0), NO_ROOM),
        StackForm::Dup2X1 => copied(rooms_at(shapes, 0), room_at(shapes, 2)),
        StackForm::Dup2X2 => copied(rooms_at(shapes, 0), rooms_at(shapes, 2)),
        StackForm::Swap => exchanged(top(shapes), second(shapes)),
    }
}
