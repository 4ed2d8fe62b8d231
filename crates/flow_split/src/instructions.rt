//! What each instruction but a call moves.

ghost use Rattle.std.specs.Prelude.{◌≡◌, ℕ, false, List, [], ◌∷◌};
ghost use Rattle.image_instr.specs.declared.insn.MInsn.TheVariants as insns;
ghost use Rattle.jvm_model.specs.WidthsShapes.{Point};
ghost use Rattle.jvm_model.specs.ImageExpansion.{Locals, Ids, alone, expanded, load, store as store_of};
ghost use Rattle.flow_split.specs.Around.{is_call, IsAround};
ghost use Rattle.flow_split.specs.Moves.{AreMoves};

use crate::families::{array_load, array_store, constant, read, returned, tested, unary, written};
use crate::kinds::{extended, number_cells, width_cells};
use crate::moves::{Move, STILL};
use crate::restacking::{restacked, second, top};
use body_form::Op;
use class_pool::Kind;
use image_instr::{Kind as Shape, Width};
use insn_form::ValueKind;

/// One move.
fn alone_moves(pops: u64, pushes: u64) -> [Move; 3]
    ensures { result ≡ (record { pops = pops; pushes = pushes }) ∷ (record { pops = 0; pushes = 0 }) ∷ (record { pops = 0; pushes = 0 }) ∷ [] }
{
    [Move { pops, pushes }, STILL, STILL]
}

/// A local is pushed.
fn loaded(kind: ValueKind, width: Width) -> [Move; 3]
    ensures { (locals : Locals) (local : ℕ) → locals.width local ≡ width → AreMoves (alone (load locals kind local)) result }
{
    match kind {
        ValueKind::Ref => alone_moves(0, 1),
        ValueKind::Int => alone_moves(0, width_cells(width)),
    }
}

/// A local is written.
fn stored(kind: ValueKind, width: Width) -> [Move; 3]
    ensures { (locals : Locals) (local : ℕ) → locals.width local ≡ width → AreMoves (store_of locals kind local) result }
{
    match kind {
        ValueKind::Ref => alone_moves(1, 0),
        ValueKind::Int => alone_moves(width_cells(width), 0),
    }
}

/// What an instruction that is no call moves, by the width of the local that it names, the shapes of the operands
/// before it, that of the top one after it, and what its method returns.
pub(crate) fn moves_of(
    op: &Op,
    width: Width,
    before: &[Shape],
    after: Shape,
    kept: &Option<Kind>,
) -> [Move; 3]
    ensures { (locals : Locals) (ids : Ids) (offset : ℕ → ℕ) (point : Point) → is_call op.now ≡ false → IsAround locals point op.now width before.now after → AreMoves (expanded locals ids offset kept.now point op.now) result }
{
    match op {
        Op::Const(value) => [constant(*value, after), STILL, STILL],
        Op::Load(kind, _) => loaded(*kind, width),
        Op::Store(kind, _) => stored(*kind, width),
        Op::Stack(form) => restacked(*form, before),
        Op::Bin(_) => {
            let cells = number_cells(top(before));
            alone_moves(2 * cells, cells)
        }
        Op::Unary(operation) => unary(*operation, top(before), after),
        Op::If(_, _) => alone_moves(number_cells(top(before)), 0),
        Op::IfCmp(_, _) => alone_moves(2 * number_cells(top(before)), 0),
        Op::IfRef(condition, _) => [tested(*condition), STILL, STILL],
        Op::Switch { .. } => alone_moves(number_cells(top(before)), 0),
        Op::Return(value) => returned(kept, top(before), *value),
        Op::GetStatic(used) => read(0, &used.kind, after),
        Op::PutStatic(used) => written(0, &used.kind, top(before)),
        Op::GetField(used) => read(1, &used.kind, after),
        Op::PutField(used) => written(1, &used.kind, top(before)),
        Op::New(_) => alone_moves(0, 1),
        Op::NewArray(_) => alone_moves(number_cells(top(before)), 1),
        Op::ArrayLength | Op::InstanceOf(_) => {
            [Move { pops: 1, pushes: 1 }, extended(after), STILL]
        }
        Op::ArrayLoad(kind) => array_load(*kind, top(before), after),
        Op::ArrayStore(kind) => array_store(*kind, top(before), second(before)),
        Op::Throw => alone_moves(1, 0),
        Op::CheckCast(_) => alone_moves(1, 1),
        Op::MultiArray { dims, .. } => alone_moves(2 * u64::from(*dims), 1),
        Op::Nop
        | Op::Inc { .. }
        | Op::Goto(_)
        | Op::CallVirtual(_)
        | Op::CallSpecial(_)
        | Op::CallStatic(_)
        | Op::CallInterface(_) => [STILL, STILL, STILL],
    }
}
