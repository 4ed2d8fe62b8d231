//! Rules of returns (JVMS 6.5, ireturn to return).

ghost use Rattle.std.specs.Prelude.{◌≡◌, ◌≤◌, option_map, IfSome};
ghost use Rattle.jvm_model.specs.TypesFrames.{IsKnownFrame};
ghost use Rattle.jvm_model.specs.TypesRules.{return_of as return_of_change};
ghost use Rattle.type_table.specs.Changes.{meant};
ghost use Rattle.type_table.specs.Frames.{IsFrame, frame_of};

use crate::kinds::kind_type;
use crate::need::Need;
use crate::operands::plain;
use body_form::Body;
use class_tree::ClassSet;
use insn_form::ValueKind;
use type_table::{Change, FrameId, Store};

/// What is returned is of the kind of the instruction and of the method's result. A constructor returns when it has
/// called another one.
pub(crate) fn return_of(
    set: &ClassSet,
    body: &Body,
    store: &Store,
    frame: FrameId,
    kind: Option<ValueKind>,
) -> Option<Change>
    requires there { IsFrame store.now frame }
    requires known { IsKnownFrame set.now (frame_of store.now frame) }
    ensures change { option_map meant result ≡ return_of_change set.now body.now kind (frame_of store.now frame) }
    ensures pops { IfSome result (λ change. change.pops ≤ frame.height) }
{
    if frame.pending {
        return None;
    }
    match (&body.result, kind) {
        (None, None) => plain(set, store, frame, &[], &[]),
        (Some(result), Some(kind)) => match kind_type(set, result) {
            Some(declared) => plain(set, store, frame, &[Need::Returned(kind, declared)], &[]),
            None => None,
        },
        _ => None,
    }
}
