//! What the instructions of a wave send (JVMS 4.10.1.6): the frame after an instruction to its successors, and the
//! frames before and after it to the handlers that cover it.

ghost use Rattle.std.specs.Prelude.{◌≡◌, ◌<◌, ℕ, List, [], ◌∷◌, None, Some, map, filter, length, IfOk, OnOk};
ghost use Rattle.std.specs.List.{AllByRecursion, flat_map};
ghost use Rattle.class_tree.specs.Tree.{Gathers};
ghost use Rattle.body_form.specs.Flow.{IsStart, covers as covers_of, pc_at, successors as successors_of};
ghost use Rattle.jvm_model.specs.TypesNames.{IsOfSet};
ghost use Rattle.jvm_model.specs.TypesRight.{entered, sent_from as sent_from_of, sent_to_handlers as sent_to_handlers_of};
ghost use Rattle.type_table.specs.Frames.{Stored, frame_of, Grows, IsFrame};
ghost use Rattle.flow_verify.specs.KnownFrames.{AreSound};
ghost use Rattle.flow_verify.specs.Lowest.{IsLowest};
ghost use Rattle.flow_verify.specs.Waves.{sent_at, Adds, IsUnruled, UnruledIn, sent_with};

use crate::after::frame_after;
use crate::frames::{Arriving, Known};
use crate::lowest::lower;
use crate::rules::THROWABLE;
use body_form::{Body, Guard, successors};
use class_tree::ClassSet;
use std::alloc::Global;
use type_table::{FrameId, Memory, Store};

/// What a wave sends, and the lowest pc in it at which a rule does not hold.
#[derive(Debug, Drop)]
pub(crate) struct Sending {
    pub(crate) arriving: Vec<Arriving>,
    pub(crate) failing: Option<u32>,
}

/// Sends a frame to the instruction at a pc, where there is one.
fn send_to(body: &Body, pc: u32, frame: FrameId, arriving: &mut Vec<Arriving>) -> Result<(), Memory>
    ensures { OnOk result ((stored : Stored) → IsFrame stored frame → Adds body.now.ops stored (sent_with (frame_of stored frame) pc ∷ []) arriving.old.items arriving.new.items) }
{
    if let Some(position) = body.ops.position_of(pc) {
        arriving.push(Arriving { position, frame })?;
    }
    Ok(())
}

/// Sends a frame to the successors of the instruction at a pc.
fn send_on(
    alloc: Global,
    body: &Body,
    pc: u32,
    after: FrameId,
    arriving: &mut Vec<Arriving>,
) -> Result<(), Memory>
    requires { IsStart body.now.ops pc }
    ensures { OnOk result ((stored : Stored) → IsFrame stored after → Adds body.now.ops stored (map (sent_with (frame_of stored after)) (successors_of body.now.ops pc)) arriving.old.items arriving.new.items) }
{
    let successors = successors(alloc, body, pc)?;
    for to in successors.as_slice() {
        match send_to(body, *to, after, arriving) {
            Ok(()) => {}
            Err(why) => return Err(why),
        }
    }
    Ok(())
}

/// Enters a handler with the locals of a frame.
fn enter(
    body: &Body,
    guard: &Guard,
    frame: FrameId,
    store: &mut Store,
    arriving: &mut Vec<Arriving>,
) -> Result<(), Memory>
    requires { IsFrame store.old frame }
    ensures grows { Grows store.old store.new }
    ensures sent { OnOk result (Adds body.now.ops store.new (sent_with (entered guard.now (frame_of store.old frame)) guard.now.target ∷ []) arriving.old.items arriving.new.items) }
{
    let frame = store.entered(frame, guard.class.unwrap_or(THROWABLE))?;
    send_to(body, guard.target, frame, arriving)
}

/// Whether the range of a row holds the pc.
fn covers(pc: u32, guard: &Guard) -> bool
    ensures { result ≡ covers_of pc guard.now }
{
    guard.start <= pc && pc < guard.end
}

/// Enters the handler of a row with the locals before an instruction and with those after it, where the row covers
/// the instruction at a pc.
fn enter_covering(
    body: &Body,
    pc: u32,
    guard: &Guard,
    before: FrameId,
    after: FrameId,
    store: &mut Store,
    arriving: &mut Vec<Arriving>,
) -> Result<(), Memory>
    requires before { IsFrame store.old before }
    requires after { IsFrame store.old after }
    ensures grows { Grows store.old store.new }
    ensures sent { OnOk result (Adds body.now.ops store.new (sent_to_handlers_of (frame_of store.old before) (frame_of store.old after) (filter (covers_of pc) (guard.now ∷ []))) arriving.old.items arriving.new.items) }
{
    if !covers(pc, guard) {
        return Ok(());
    }
    enter(body, guard, before, store, arriving)?;
    enter(body, guard, after, store, arriving)
}

/// Enters each handler that covers the instruction at a pc. A row that does not cover it costs a comparison.
fn enter_handlers(
    body: &Body,
    pc: u32,
    before: FrameId,
    after: FrameId,
    store: &mut Store,
    arriving: &mut Vec<Arriving>,
) -> Result<(), Memory>
    requires before { IsFrame store.old before }
    requires after { IsFrame store.old after }
    ensures grows { Grows store.old store.new }
    ensures sent { OnOk result (Adds body.now.ops store.new (sent_to_handlers_of (frame_of store.old before) (frame_of store.old after) (filter (covers_of pc) body.now.handlers)) arriving.old.items arriving.new.items) }
{
    for guard in body.handlers.as_slice() {
        match enter_covering(body, pc, guard, before, after, store, arriving) {
            Ok(()) => {}
            Err(why) => return Err(why),
        }
    }
    Ok(())
}

/// Sends what the instruction at a pc does, from the frames before and after it.
fn send_from(
    alloc: Global,
    body: &Body,
    pc: u32,
    before: FrameId,
    after: FrameId,
    store: &mut Store,
    arriving: &mut Vec<Arriving>,
) -> Result<(), Memory>
    requires start { IsStart body.now.ops pc }
    requires before { IsFrame store.old before }
    requires after { IsFrame store.old after }
    ensures grows { Grows store.old store.new }
    ensures sent { OnOk result (Adds body.now.ops store.new (sent_from_of body.now pc (frame_of store.old before) (frame_of store.old after)) arriving.old.items arriving.new.items) }
{
    send_on(alloc, body, pc, after, arriving)?;
    enter_handlers(body, pc, before, after, store, arriving)
}

/// Sends what the instruction at a position does, if a frame is known before it. The answer is its pc where its rule
/// does not hold.
fn send_at(
    alloc: Global,
    set: &ClassSet,
    body: &Body,
    position: usize,
    known: &[Option<Known>],
    store: &mut Store,
    arriving: &mut Vec<Arriving>,
) -> Result<Option<u32>, Memory>
    requires closed { Gathers set.now None }
    requires names { IsOfSet set.now body.now }
    requires within { position < length body.now.ops }
    requires count { length known.now ≡ length body.now.ops }
    requires sound { AreSound set.now store.old known.now }
    ensures grows { Grows store.old store.new }
    ensures sent { OnOk result (Adds body.now.ops store.new (sent_at set.now body.now store.old known.now position) arriving.old.items arriving.new.items) }
    ensures ruled { IfOk result (IsLowest (IsUnruled set.now body.now store.old known.now position)) }
{
    let Some(known) = known[position] else {
        return Ok(None);
    };
    let (pc, _) = &body.ops.as_slice()[position];
    match frame_after(alloc, set, body, position, store, known.frame)? {
        Some(after) => {
            send_from(alloc, body, *pc, known.frame, after, store, arriving)?;
            Ok(None)
        }
        None => Ok(Some(*pc)),
    }
}

/// Sends what the instructions of a wave do.
pub(crate) fn send_wave(
    alloc: Global,
    set: &ClassSet,
    body: &Body,
    wave: &[usize],
    known: &[Option<Known>],
    store: &mut Store,
) -> Result<Sending, Memory>
    requires closed { Gathers set.now None }
    requires names { IsOfSet set.now body.now }
    requires within { AllByRecursion (λ position. position < length body.now.ops) wave.now }
    requires count { length known.now ≡ length body.now.ops }
    requires sound { AreSound set.now store.old known.now }
    ensures grows { Grows store.old store.new }
    ensures sent { IfOk result (λ sending. Adds body.now.ops store.new (flat_map (sent_at set.now body.now store.old known.now) wave.now) [] sending.arriving.items) }
    ensures ruled { IfOk result (λ sending. IsLowest (UnruledIn set.now body.now store.old known.now wave.now) sending.failing) }
{
    let mut arriving = Vec::new(alloc);
    let mut failing = None;
    for position in wave {
        match send_at(alloc, set, body, *position, known, store, &mut arriving) {
            Ok(unruled) => failing = lower(failing, unruled),
            Err(why) => return Err(why),
        }
    }
    Ok(Sending { arriving, failing })
}
