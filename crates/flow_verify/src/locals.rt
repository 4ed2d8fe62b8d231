//! Rules of instructions on locals (JVMS 6.5, iload to iinc).

ghost use Rattle.std.specs.Prelude.{◌≡◌, ◌≤◌, option_map, slice_get, IfSome};
ghost use Rattle.jvm_model.specs.TypesFrames.{IsKnownFrame};
ghost use Rattle.jvm_model.specs.TypesRules.{load as load_change, store as store_change, increment as increment_change};
ghost use Rattle.type_table.specs.Changes.{meant};
ghost use Rattle.type_table.specs.Frames.{IsFrame, frame_of};

use crate::operands::plain;
use crate::values::{has_kind, is_int};
use class_tree::ClassSet;
use insn_form::ValueKind;
use type_table::{Change, FrameId, Pushes, Store};

/// A local of the kind is pushed.
pub(crate) fn load(
    set: &ClassSet,
    store: &Store,
    frame: FrameId,
    kind: ValueKind,
    local: u16,
) -> Option<Change>
    requires there { IsFrame store.now frame }
    requires known { IsKnownFrame set.now (frame_of store.now frame) }
    ensures change { option_map meant result ≡ load_change (frame_of store.now frame) kind (slice_get (frame_of store.now frame).locals local) }
    ensures pops { IfSome result (λ change. change.pops ≤ frame.height) }
{
    match store.local(frame, local) {
        Some(value) if has_kind(kind, value) => plain(set, store, frame, &[], &[value]),
        _ => None,
    }
}

/// An operand of the kind is taken, and is the local from now on.
pub(crate) fn store(store: &Store, frame: FrameId, kind: ValueKind, local: u16) -> Option<Change>
    requires { IsFrame store.now frame }
    ensures change { option_map meant result ≡ store_change (frame_of store.now frame) kind local (frame_of store.now frame).stack }
    ensures pops { IfSome result (λ change. change.pops ≤ frame.height) }
{
    match store.operand(frame, 0) {
        Some(value) if has_kind(kind, value) && local < store.local_count() => Some(Change {
            pops: 1,
            renames: None,
            stores: Some((local, value)),
            pushes: Pushes::of(&[]),
            pending: frame.pending,
        }),
        _ => None,
    }
}

/// The local is an int, and stays one.
pub(crate) fn increment(set: &ClassSet, store: &Store, frame: FrameId, local: u16) -> Option<Change>
    requires there { IsFrame store.now frame }
    requires known { IsKnownFrame set.now (frame_of store.now frame) }
    ensures change { option_map meant result ≡ increment_change (frame_of store.now frame) (slice_get (frame_of store.now frame).locals local) }
    ensures pops { IfSome result (λ change. change.pops ≤ frame.height) }
{
    match store.local(frame, local) {
        Some(value) if is_int(value) => plain(set, store, frame, &[], &[]),
        _ => None,
    }
}
