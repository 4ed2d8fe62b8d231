//! Rules of instructions on fields (JVMS 6.5, getstatic to putfield).

ghost use Rattle.std.specs.Prelude.{◌≡◌, ◌≤◌, ◌&&◌, nat_eq, [], ◌∷◌, option_map, IfSome};
ghost use Rattle.jvm_model.specs.TypesFrames.{IsKnownFrame, fits_kind};
ghost use Rattle.jvm_model.specs.TypesRules.{plain as plain_change, plain_of as plain_of_change, field_value, fits_class, is_written};
ghost use Rattle.type_table.specs.Changes.{meant};
ghost use Rattle.type_table.specs.Frames.{IsFrame, frame_of};
ghost use Rattle.flow_verify.specs.declared.need.Need.TheVariants as need;

use crate::kinds::{declared_need, value_of_kind};
use crate::need::Need;
use crate::operands::{plain, plain_of};
use body_form::{Body, FieldUse};
use class_tree::ClassSet;
use type_table::{Change, FrameId, Store};

/// getstatic.
pub(crate) fn get_static(
    set: &ClassSet,
    store: &Store,
    frame: FrameId,
    used: &FieldUse,
) -> Option<Change>
    requires there { IsFrame store.now frame }
    requires known { IsKnownFrame set.now (frame_of store.now frame) }
    ensures change { option_map meant result ≡ plain_of_change (frame_of store.now frame) [] (field_value set.now used.now) }
    ensures pops { IfSome result (λ change. change.pops ≤ frame.height) }
{
    plain_of(set, store, frame, &[], value_of_kind(set, &used.kind))
}

/// putstatic.
pub(crate) fn put_static(
    set: &ClassSet,
    store: &Store,
    frame: FrameId,
    used: &FieldUse,
) -> Option<Change>
    requires there { IsFrame store.now frame }
    requires known { IsKnownFrame set.now (frame_of store.now frame) }
    ensures change { option_map meant result ≡ plain_change (frame_of store.now frame) (fits_kind set.now used.now.kind ∷ []) [] }
    ensures pops { IfSome result (λ change. change.pops ≤ frame.height) }
{
    plain(set, store, frame, &[declared_need(set, &used.kind)], &[])
}

/// getfield.
pub(crate) fn get_field(
    set: &ClassSet,
    store: &Store,
    frame: FrameId,
    used: &FieldUse,
) -> Option<Change>
    requires there { IsFrame store.now frame }
    requires known { IsKnownFrame set.now (frame_of store.now frame) }
    ensures change { option_map meant result ≡ plain_of_change (frame_of store.now frame) (fits_class set.now used.now.class ∷ []) (field_value set.now used.now) }
    ensures pops { IfSome result (λ change. change.pops ≤ frame.height) }
{
    plain_of(
        set,
        store,
        frame,
        &[Need::Class(used.class)],
        value_of_kind(set, &used.kind),
    )
}

/// What the object has to be whose field is written: one of the class that is named, or, in a constructor that has
/// yet to call another one, its own object, where its class declares the field (JVMS 4.10.1.9, putfield).
fn written_need(body: &Body, frame: FrameId, used: &FieldUse) -> Need
    ensures { result ≡ need.Written used.now.class (frame.pending && nat_eq used.now.field.class body.now.class) }
{
    Need::Written {
        class: used.class,
        own: frame.pending && used.field.class == body.class,
    }
}

/// putfield.
pub(crate) fn put_field(
    set: &ClassSet,
    body: &Body,
    store: &Store,
    frame: FrameId,
    used: &FieldUse,
) -> Option<Change>
    requires there { IsFrame store.now frame }
    requires known { IsKnownFrame set.now (frame_of store.now frame) }
    ensures change { option_map meant result ≡ plain_change (frame_of store.now frame) (fits_kind set.now used.now.kind ∷ is_written set.now body.now (frame_of store.now frame) used.now ∷ []) [] }
    ensures pops { IfSome result (λ change. change.pops ≤ frame.height) }
{
    let value = declared_need(set, &used.kind);
    let object = written_need(body, frame, used);
    plain(set, store, frame, &[value, object], &[])
}
