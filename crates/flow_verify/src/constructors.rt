//! Rules of new objects and of calls of constructors (JVMS 4.10.1.9, new and invokespecial).

ghost use Rattle.std.specs.Prelude.{◌≡◌, ◌≤◌, suc, [], ◌∷◌, length, drop, option_map, IfOk, IfSome};
ghost use Rattle.std.specs.Str.{bytes_eq};
ghost use Rattle.jvm_model.specs.MethodUses.{constructor_name};
ghost use Rattle.jvm_model.specs.TypesFrames.{IsKnownFrame};
ghost use Rattle.jvm_model.specs.TypesRules.{call_special as call_special_change, construct as construct_change, construct_on as construct_on_change, constructs as constructs_change, is_own_or_super as is_own_or_super_class, make as make_change, makes_class as makes_class_op, op_at};
ghost use Rattle.body_form.specs.declared.types.VFrame.{VFrame};
ghost use Rattle.type_table.specs.Changes.{meant};
ghost use Rattle.type_table.specs.Frames.{IsFrame, frame_of};

use crate::calls::{argument_needs, call};
use crate::need::{Need, takes};
use body_form::{Body, MethodUse, Op, VType};
use class_pool::{TypeBase, TypeRef};
use class_tree::ClassSet;
use std::alloc::Global;
use type_table::{Change, FrameId, Memory, Pushes, Store};

/// The name of constructors (JVMS 2.9).
pub(crate) const CONSTRUCTOR: &[u8] = b"<init>";

/// The instruction makes an object of the class.
fn is_new_of(op: &Op, class: u16) -> bool
    ensures { result ≡ makes_class_op class (Some op.now) }
{
    match op {
        Op::New(made) => made.dims == 0 && made.base == TypeBase::Class(class),
        _ => false,
    }
}

/// The instruction at a pc makes an object of the class.
fn makes_class(body: &Body, pc: u32, class: u16) -> bool
    ensures { result ≡ makes_class_op class (op_at body.now.ops pc) }
{
    match body.ops.position_of(pc) {
        Some(position) => is_new_of(&body.ops.as_slice()[position].1, class),
        None => false,
    }
}

/// The class is a class itself, or its superclass.
fn is_own_or_super(set: &ClassSet, own: u16, class: u16) -> bool
    ensures { result ≡ is_own_or_super_class set.now own class }
{
    class == own || set.superclass_of(own) == Some(class)
}

/// So many operands are taken, the object among them, and it is an object of a class from now on.
fn constructs(pops: u32, object: VType, class: u16, pending: bool) -> Change
    ensures change { Some (meant result) ≡ constructs_change pops object class pending }
    ensures pops { result.pops ≡ pops }
{
    let constructed = VType::Ref(TypeRef {
        dims: 0,
        base: TypeBase::Class(class),
    });
    Change {
        pops,
        renames: Some((object, constructed)),
        stores: None,
        pushes: Pushes::of(&[]),
        pending,
    }
}

/// A constructor is called on an object that is not yet constructed: on one that an instruction made of the class that
/// is named, or on the constructor's own, by the name of its class or its superclass.
fn construct_object(
    set: &ClassSet,
    body: &Body,
    frame: FrameId,
    used: &MethodUse,
    object: VType,
    pops: u32,
) -> Option<Change>
    requires { pops ≡ suc (length used.now.descriptor.params) }
    ensures change { (before : VFrame) → before.pending ≡ frame.pending → option_map meant result ≡ construct_on_change set.now body.now before used.now (object ∷ []) }
    ensures pops { IfSome result (λ change. change.pops ≡ pops) }
{
    match object {
        VType::New(pc) if makes_class(body, pc, used.class) => {
            Some(constructs(pops, object, used.class, frame.pending))
        }
        VType::This if is_own_or_super(set, body.class, used.class) => {
            Some(constructs(pops, object, body.class, false))
        }
        _ => None,
    }
}

/// A constructor is called on the operand below so many arguments.
fn construct_on(
    set: &ClassSet,
    body: &Body,
    store: &Store,
    frame: FrameId,
    used: &MethodUse,
    count: u32,
) -> Option<Change>
    requires there { IsFrame store.now frame }
    requires count { count ≡ length used.now.descriptor.params }
    ensures change { option_map meant result ≡ construct_on_change set.now body.now (frame_of store.now frame) used.now (drop count (frame_of store.now frame).stack) }
    ensures pops { IfSome result (λ change. change.pops ≤ frame.height) }
{
    if frame.height <= count {
        return None;
    }
    match store.operand(frame, count) {
        Some(object) => construct_object(set, body, frame, used, object, count + 1),
        None => None,
    }
}

/// The call of a constructor on an object that is not yet constructed.
fn construct(
    alloc: Global,
    set: &ClassSet,
    body: &Body,
    store: &Store,
    frame: FrameId,
    used: &MethodUse,
) -> Result<Option<Change>, Memory>
    requires there { IsFrame store.now frame }
    requires known { IsKnownFrame set.now (frame_of store.now frame) }
    ensures change { IfOk result (λ o. option_map meant o ≡ construct_change set.now body.now (frame_of store.now frame) used.now) }
    ensures pops { IfOk result (λ o. IfSome o (λ change. change.pops ≤ frame.height)) }
{
    let needs = argument_needs(alloc, set, used, None)?;
    if !takes(set, store, frame, &needs) {
        return Ok(None);
    }
    Ok(construct_on(set, body, store, frame, used, needs.len() as u32))
}

/// invokespecial: a constructor, or a method on an object that fits both the class that is named and the current one.
pub(crate) fn call_special(
    alloc: Global,
    set: &ClassSet,
    body: &Body,
    store: &Store,
    frame: FrameId,
    used: &MethodUse,
) -> Result<Option<Change>, Memory>
    requires there { IsFrame store.now frame }
    requires known { IsKnownFrame set.now (frame_of store.now frame) }
    ensures change { IfOk result (λ o. option_map meant o ≡ call_special_change set.now body.now (frame_of store.now frame) used.now) }
    ensures pops { IfOk result (λ o. IfSome o (λ change. change.pops ≤ frame.height)) }
{
    if used.name.as_slice() == CONSTRUCTOR {
        return construct(alloc, set, body, store, frame, used);
    }
    let receiver = Need::BothClasses(used.class, body.class);
    call(alloc, set, store, frame, used, Some(receiver))
}

/// new: an object that the same instruction made before is no operand, and no local has it from now on.
pub(crate) fn make(store: &Store, frame: FrameId, pc: u32) -> Option<Change>
    requires { IsFrame store.now frame }
    ensures change { option_map meant result ≡ make_change pc (frame_of store.now frame) }
    ensures pops { IfSome result (λ change. change.pops ≤ frame.height) }
{
    let made = VType::New(pc);
    if store.has_operand(frame, made) {
        return None;
    }
    Some(Change {
        pops: 0,
        renames: Some((made, VType::Top)),
        stores: None,
        pushes: Pushes::of(&[made]),
        pending: frame.pending,
    })
}
