//! The frame after an instruction (JVMS 4.10.1.9).

ghost use Rattle.std.specs.Prelude.{◌≡◌, ◌<◌, length, IfOk};
ghost use Rattle.jvm_model.specs.TypesFrames.{IsKnownFrame};
ghost use Rattle.jvm_model.specs.TypesRules.{is_within as is_within_frame};
ghost use Rattle.type_table.specs.Frames.{IsFrame, Grows, frame_of};
ghost use Rattle.flow_verify.specs.Finding.{IsOption, after_at, falls_off_at};

use crate::rules::change_of;
use body_form::Body;
use class_tree::ClassSet;
use code_reach::Flow;
use std::alloc::Global;
use type_table::{FrameId, Memory, Store};

/// The operands and the locals are within the numbers that the method declares.
fn is_within(body: &Body, store: &Store, frame: FrameId) -> bool
    requires { IsFrame store.now frame }
    ensures { result ≡ is_within_frame body.now (frame_of store.now frame) }
{
    frame.height <= u32::from(body.max_stack) && store.local_count() <= body.max_locals
}

/// The instruction at a position is the last one, and goes on.
fn falls_off(body: &Body, position: usize) -> bool
    requires { position < length body.now.ops }
    ensures { result ≡ falls_off_at body.now position }
{
    let ops = body.ops.as_slice();
    ops[position].1.goes_on() && position + 1 == ops.len()
}

/// The frame after the instruction at a position, from the one before it; `None` where its rule does not hold.
pub(crate) fn frame_after(
    alloc: Global,
    set: &ClassSet,
    body: &Body,
    position: usize,
    store: &mut Store,
    frame: FrameId,
) -> Result<Option<FrameId>, Memory>
    requires position { position < length body.now.ops }
    requires there { IsFrame store.old frame }
    requires known { IsKnownFrame set.now (frame_of store.old frame) }
    ensures grows { Grows store.old store.new }
    ensures after { IfOk result (λ id. IsOption store.new id (after_at set.now body.now position (frame_of store.old frame))) }
{
    if !is_within(body, store, frame) || falls_off(body, position) {
        return Ok(None);
    }
    let (pc, op) = &body.ops.as_slice()[position];
    let change = match change_of(alloc, set, body, *pc, op, store, frame)? {
        Some(change) => change,
        None => return Ok(None),
    };
    let after = store.changed(frame, &change)?;
    if is_within(body, store, after) {
        Ok(Some(after))
    } else {
        Ok(None)
    }
}
