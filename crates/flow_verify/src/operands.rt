//! Rules of instructions that take operands and push others (JVMS 6.5).

ghost use Rattle.std.specs.Prelude.{◌≡◌, ◌≤◌, [], length, option_map, IfSome};
ghost use Rattle.jvm_model.specs.TypesFrames.{IsKnownFrame};
ghost use Rattle.jvm_model.specs.TypesRules.{one, plain as plain_change, plain_of as plain_of_change, restack as restack_change, constant_of as constant_of_type};
ghost use Rattle.type_table.specs.Changes.{meant};
ghost use Rattle.type_table.specs.Frames.{IsFrame, frame_of};
ghost use Rattle.flow_verify.specs.Needs.{tests_of};
ghost use Rattle.flow_verify.specs.Moves.{moves_at, AreTaken};

use crate::need::{Need, takes};
use body_form::{Literal, VType};
use class_tree::ClassSet;
use insn_form::StackForm;
use type_table::{Change, FrameId, Pushes, Store};

/// Operands that are what they have to be are taken, and others are pushed.
pub(crate) fn plain(
    set: &ClassSet,
    store: &Store,
    frame: FrameId,
    needs: &[Need],
    pushes: &[VType],
) -> Option<Change>
    requires there { IsFrame store.now frame }
    requires known { IsKnownFrame set.now (frame_of store.now frame) }
    requires few { length pushes.now ≤ 6 }
    ensures change { option_map meant result ≡ plain_change (frame_of store.now frame) (tests_of set.now needs.now) pushes.now }
    ensures pops { IfSome result (λ change. change.pops ≤ frame.height) }
{
    if !takes(set, store, frame, needs) {
        return None;
    }
    Some(Change {
        pops: needs.len() as u32,
        renames: None,
        stores: None,
        pushes: Pushes::of(pushes),
        pending: frame.pending,
    })
}

/// The same with one operand that is pushed, where it is known what it is.
pub(crate) fn plain_of(
    set: &ClassSet,
    store: &Store,
    frame: FrameId,
    needs: &[Need],
    pushed: Option<VType>,
) -> Option<Change>
    requires there { IsFrame store.now frame }
    requires known { IsKnownFrame set.now (frame_of store.now frame) }
    ensures change { option_map meant result ≡ plain_of_change (frame_of store.now frame) (tests_of set.now needs.now) (option_map one pushed) }
    ensures pops { IfSome result (λ change. change.pops ≤ frame.height) }
{
    match pushed {
        Some(value) => plain(set, store, frame, needs, &[value]),
        None => None,
    }
}

/// What a constant instruction pushes.
pub(crate) fn constant_of(constant: Literal) -> VType
    ensures { result ≡ constant_of_type constant }
{
    match constant {
        Literal::Int(_) => VType::Int,
        Literal::Null => VType::Null,
    }
}

// ---- operands that move

/// So many operands are taken, and those at these positions are pushed, the top one at 0.
fn moves(store: &Store, frame: FrameId, pops: u32, positions: &[u32]) -> Option<Change>
    requires there { IsFrame store.now frame }
    requires few { length positions.now ≤ 6 }
    requires taken { AreTaken pops positions.now }
    ensures change { option_map meant result ≡ moves_at (frame_of store.now frame) pops positions.now }
    ensures pops { IfSome result (λ change. change.pops ≤ frame.height) }
{
    if frame.height < pops {
        return None;
    }
    let mut types = [VType::Top; 6];
    for (index, position) in positions.iter().enumerate() {
        match store.operand(frame, *position) {
            Some(value) => types[index] = value,
            None => return None,
        }
    }
    Some(Change {
        pops,
        renames: None,
        stores: None,
        pushes: Pushes::of(&types[..positions.len()]),
        pending: frame.pending,
    })
}

/// The instructions that move operands as they are.
pub(crate) fn restack(store: &Store, frame: FrameId, form: StackForm) -> Option<Change>
    requires { IsFrame store.now frame }
    ensures change { option_map meant result ≡ restack_change (frame_of store.now frame) form (frame_of store.now frame).stack }
    ensures pops { IfSome result (λ change. change.pops ≤ frame.height) }
{
    match form {
        StackForm::Pop => moves(store, frame, 1, &[]),
        StackForm::Pop2 => moves(store, frame, 2, &[]),
        StackForm::Dup => moves(store, frame, 1, &[0, 0]),
        StackForm::DupX1 => moves(store, frame, 2, &[0, 1, 0]),
        StackForm::DupX2 => moves(store, frame, 3, &[0, 1, 2, 0]),
        StackForm::Dup2 => moves(store, frame, 2, &[0, 1, 0, 1]),
        StackForm::Dup2X1 => moves(store, frame, 3, &[0, 1, 2, 0, 1]),
        StackForm::Dup2X2 => moves(store, frame, 4, &[0, 1, 2, 3, 0, 1]),
        StackForm::Swap => moves(store, frame, 2, &[1, 0]),
    }
}
