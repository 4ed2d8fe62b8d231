//! Rules of instructions on arrays (JVMS 6.5, newarray to multianewarray).

ghost use Rattle.std.specs.Prelude.{◌≡◌, ◌≤◌, [], ◌∷◌, replicate, option_map, IfOk, IfSome};
ghost use Rattle.jvm_model.specs.TypesFrames.{IsKnownFrame, is_int};
ghost use Rattle.jvm_model.specs.TypesRules.{array_load as array_load_change, plain as plain_change, is_array_of, is_elements_value};
ghost use Rattle.body_form.specs.declared.types.VType.TheVariants as known;
ghost use Rattle.type_table.specs.Changes.{meant};
ghost use Rattle.type_table.specs.Frames.{IsFrame, frame_of};

use crate::need::Need;
use crate::operands::plain;
use crate::values::element_of;
use body_form::VType;
use class_pool::TypeRef;
use class_tree::ClassSet;
use insn_form::ElementKind;
use std::alloc::Global;
use type_table::{Change, FrameId, Memory, Store};

/// iaload to saload.
pub(crate) fn array_load(
    set: &ClassSet,
    store: &Store,
    frame: FrameId,
    kind: ElementKind,
) -> Option<Change>
    requires there { IsFrame store.now frame }
    requires known { IsKnownFrame set.now (frame_of store.now frame) }
    ensures change { option_map meant result ≡ array_load_change (frame_of store.now frame) kind (frame_of store.now frame).stack }
    ensures pops { IfSome result (λ change. change.pops ≤ frame.height) }
{
    let needs = [Need::Int, Need::ArrayOf(kind)];
    match kind {
        ElementKind::Ref => match store.operand(frame, 1) {
            Some(array) => plain(set, store, frame, &needs, &[element_of(array)]),
            None => None,
        },
        _ => plain(set, store, frame, &needs, &[VType::Int]),
    }
}

/// iastore to sastore.
pub(crate) fn array_store(
    set: &ClassSet,
    store: &Store,
    frame: FrameId,
    kind: ElementKind,
) -> Option<Change>
    requires there { IsFrame store.now frame }
    requires known { IsKnownFrame set.now (frame_of store.now frame) }
    ensures change { option_map meant result ≡ plain_change (frame_of store.now frame) (is_elements_value kind ∷ is_int ∷ is_array_of kind ∷ []) [] }
    ensures pops { IfSome result (λ change. change.pops ≤ frame.height) }
{
    let needs = [Need::Element(kind), Need::Int, Need::ArrayOf(kind)];
    plain(set, store, frame, &needs, &[])
}

/// multianewarray: so many lengths are taken.
pub(crate) fn multi_array(
    alloc: Global,
    set: &ClassSet,
    store: &Store,
    frame: FrameId,
    array: TypeRef,
    dims: u8,
) -> Result<Option<Change>, Memory>
    requires there { IsFrame store.now frame }
    requires known { IsKnownFrame set.now (frame_of store.now frame) }
    ensures change { IfOk result (λ o. option_map meant o ≡ plain_change (frame_of store.now frame) (replicate dims is_int) (known.Ref array ∷ [])) }
    ensures pops { IfOk result (λ o. IfSome o (λ change. change.pops ≤ frame.height)) }
{
    let needs = vec![in alloc; Need::Int; usize::from(dims)]?;
    Ok(plain(set, store, frame, &needs, &[VType::Ref(array)]))
}
