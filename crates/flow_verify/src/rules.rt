//! The typing rule of each family of instructions (JVMS 4.10.1.9).

ghost use Rattle.std.specs.Prelude.{◌≡◌, ◌≤◌, [], option_map, IfOk, IfSome};
ghost use Rattle.jvm_model.specs.TypesFrames.{IsKnownFrame};
ghost use Rattle.jvm_model.specs.TypesRules.{change_of as change_of_frame, compared, plain as plain_change};
ghost use Rattle.type_table.specs.Changes.{meant};
ghost use Rattle.type_table.specs.Frames.{IsFrame, frame_of};

use crate::arrays::{array_load, array_store, multi_array};
use crate::calls::call;
use crate::constructors::{call_special, make};
use crate::fields::{get_field, get_static, put_field, put_static};
use crate::locals::{increment, load, store as store_local};
use crate::need::Need;
use crate::operands::{constant_of, plain, restack};
use crate::returns::return_of;
use body_form::{Body, Op, VType};
use class_tree::ClassSet;
use insn_form::RefCond;
use std::alloc::Global;
use type_table::{Change, FrameId, Memory, Store};

/// The number of `java/lang/Throwable`.
pub(crate) const THROWABLE: u16 = 1;

/// What the instruction at a pc does to the frame before it; `None` where its rule does not hold there.
pub(crate) fn change_of(
    alloc: Global,
    set: &ClassSet,
    body: &Body,
    pc: u32,
    op: &Op,
    store: &Store,
    frame: FrameId,
) -> Result<Option<Change>, Memory>
    requires there { IsFrame store.now frame }
    requires known { IsKnownFrame set.now (frame_of store.now frame) }
    ensures change { IfOk result (λ o. option_map meant o ≡ change_of_frame set.now body.now pc op.now (frame_of store.now frame)) }
    ensures pops { IfOk result (λ o. IfSome o (λ change. change.pops ≤ frame.height)) }
{
    match op {
        Op::Nop | Op::Goto(_) => Ok(plain(set, store, frame, &[], &[])),
        Op::Const(constant) => Ok(plain(set, store, frame, &[], &[constant_of(*constant)])),
        Op::Load(kind, local) => Ok(load(set, store, frame, *kind, *local)),
        Op::Store(kind, local) => Ok(store_local(store, frame, *kind, *local)),
        Op::Inc { local, .. } => Ok(increment(set, store, frame, *local)),
        Op::Stack(form) => Ok(restack(store, frame, *form)),
        Op::Bin(_) => Ok(plain(set, store, frame, &[Need::Int, Need::Int], &[VType::Int])),
        Op::Unary(_) => Ok(plain(set, store, frame, &[Need::Int], &[VType::Int])),
        Op::If(..) | Op::Switch { .. } => Ok(plain(set, store, frame, &[Need::Int], &[])),
        Op::IfCmp(..) => Ok(plain(set, store, frame, &[Need::Int, Need::Int], &[])),
        Op::IfRef(cond, _) => Ok(compare(set, store, frame, *cond)),
        Op::Return(kind) => Ok(return_of(set, body, store, frame, *kind)),
        Op::GetStatic(used) => Ok(get_static(set, store, frame, used)),
        Op::PutStatic(used) => Ok(put_static(set, store, frame, used)),
        Op::GetField(used) => Ok(get_field(set, store, frame, used)),
        Op::PutField(used) => Ok(put_field(set, body, store, frame, used)),
        Op::CallVirtual(used) => {
            call(
                alloc,
                set,
                store,
                frame,
                used,
                Some(Need::Class(used.class)),
            )
        }
        Op::CallSpecial(used) => call_special(alloc, set, body, store, frame, used),
        Op::CallStatic(used) => call(alloc, set, store, frame, used, None),
        Op::CallInterface(used) => call(alloc, set, store, frame, used, Some(Need::Constructed)),
        Op::New(_) => Ok(make(store, frame, pc)),
        Op::NewArray(array) => Ok(plain(set, store, frame, &[Need::Int], &[VType::Ref(*array)])),
        Op::ArrayLength => Ok(plain(set, store, frame, &[Need::Array], &[VType::Int])),
        Op::ArrayLoad(kind) => Ok(array_load(set, store, frame, *kind)),
        Op::ArrayStore(kind) => Ok(array_store(set, store, frame, *kind)),
        Op::Throw => Ok(plain(set, store, frame, &[Need::Class(THROWABLE)], &[])),
        Op::CheckCast(named) => {
            Ok(plain(
                set,
                store,
                frame,
                &[Need::Constructed],
                &[VType::Ref(*named)],
            ))
        }
        Op::InstanceOf(_) => Ok(plain(set, store, frame, &[Need::Constructed], &[VType::Int])),
        Op::MultiArray { array, dims } => multi_array(alloc, set, store, frame, *array, *dims),
    }
}

/// Two references are compared, or one with null.
fn compare(set: &ClassSet, store: &Store, frame: FrameId, cond: RefCond) -> Option<Change>
    requires there { IsFrame store.now frame }
    requires known { IsKnownFrame set.now (frame_of store.now frame) }
    ensures change { option_map meant result ≡ plain_change (frame_of store.now frame) (compared cond) [] }
    ensures pops { IfSome result (λ change. change.pops ≤ frame.height) }
{
    match cond {
        RefCond::Eq | RefCond::Ne => {
            plain(
                set,
                store,
                frame,
                &[Need::Constructed, Need::Constructed],
                &[],
            )
        }
        RefCond::Null | RefCond::NonNull => plain(set, store, frame, &[Need::Constructed], &[]),
    }
}
