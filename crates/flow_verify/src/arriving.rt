//! What arrives at instructions: frames that are sent are merged into those that are known.

ghost use Rattle.std.specs.Prelude.{◌≡◌, ◌<◌, [], None, Some, length, map, slice_set, IfOk, IfSome, OnOk};
ghost use Rattle.std.specs.List.{AllByRecursion, Contains};
ghost use Rattle.class_tree.specs.Tree.{Gathers};
ghost use Rattle.jvm_model.specs.TypesNames.{IsOfSet};
ghost use Rattle.type_table.specs.Frames.{Grows};
ghost use Rattle.flow_verify.specs.KnownFrames.{AreKept, AreListed, IsSound};
ghost use Rattle.flow_verify.specs.Merging.{HasArrived, HaveArrived, IsListed};
ghost use Rattle.flow_verify.specs.Waves.{meaning_of};

use crate::frames::{Arriving, Frames, Known, Step};
use crate::lowest::lower;
use body_form::Body;
use class_tree::ClassSet;
use std::alloc::Global;
use type_table::{FrameId, Memory, Merged};

/// Lists a position, once in a round: not where this round has changed its frame before.
fn list(
    known: Option<Known>,
    position: usize,
    round: u32,
    wave: &mut Vec<usize>,
) -> Result<(), Memory>
    requires { IfSome known (λ known. known.round ≡ round → Contains wave.old.items position) }
    ensures { OnOk result (IsListed position wave.old.items wave.new.items) }
{
    if let Some(known) = known {
        if known.round == round {
            return Ok(());
        }
    }
    wave.push(position)?;
    Ok(())
}

/// Puts the frame that is known at a position from this round on, and lists the position.
pub(crate) fn put(
    frames: &mut Frames,
    position: usize,
    frame: FrameId,
    round: u32,
    wave: &mut Vec<usize>,
) -> Result<(), Memory>
    requires within { position < length frames.old.known.items }
    requires listed { AreListed round frames.old.known.items wave.old.items }
    ensures store { frames.new.store ≡ frames.old.store }
    ensures put { OnOk result (frames.new.known.items ≡ slice_set frames.old.known.items position (Some (record { frame = frame; round = round }))) }
    ensures listed { OnOk result (IsListed position wave.old.items wave.new.items) }
{
    list(frames.known[position], position, round, wave)?;
    frames.known[position] = Some(Known { frame, round });
    Ok(())
}

/// Merges a frame into the one that is known at its position. The answer is the pc there where the two do not merge.
fn arrive(
    set: &ClassSet,
    body: &Body,
    arriving: Arriving,
    round: u32,
    frames: &mut Frames,
    wave: &mut Vec<usize>,
) -> Result<Option<u32>, Memory>
    requires closed { Gathers set.now None }
    requires kept { AreKept set.now (length body.now.ops) round frames.old.store frames.old.known.items }
    requires listed { AreListed round frames.old.known.items wave.old.items }
    requires within { arriving.position < length body.now.ops }
    requires sound { IsSound set.now frames.old.store arriving.frame }
    ensures grows { Grows frames.old.store frames.new.store }
    ensures kept { OnOk result (AreKept set.now (length body.now.ops) round frames.new.store frames.new.known.items) }
    ensures listed { OnOk result (AreListed round frames.new.known.items wave.new.items) }
    ensures arrived { IfOk result (HasArrived set.now body.now.ops arriving frames.old frames.new wave.old.items wave.new.items) }
{
    let Arriving { position, frame } = arriving;
    let Some(known) = frames.known[position] else {
        put(frames, position, frame, round, wave)?;
        return Ok(None);
    };
    match frames.store.merged(set, known.frame, frame)? {
        Merged::Clash => {
            let (pc, _) = &body.ops.as_slice()[position];
            Ok(Some(*pc))
        }
        Merged::Same => Ok(None),
        Merged::Grown(merged) => {
            put(frames, position, merged, round, wave)?;
            Ok(None)
        }
    }
}

/// Merges frames that are sent into those that are known. The answer is the lowest pc at which they do not merge, if
/// there is one, and the positions that changed.
pub(crate) fn arrive_all(
    alloc: Global,
    set: &ClassSet,
    body: &Body,
    arriving: &[Arriving],
    round: u32,
    frames: &mut Frames,
) -> Result<Step, Memory>
    requires closed { Gathers set.now None }
    requires names { IsOfSet set.now body.now }
    requires kept { AreKept set.now (length body.now.ops) round frames.old.store frames.old.known.items }
    requires unchanged { AreListed round frames.old.known.items [] }
    requires within { AllByRecursion (λ one. one.position < length body.now.ops) arriving.now }
    requires sound { AllByRecursion (λ one. IsSound set.now frames.old.store one.frame) arriving.now }
    ensures { IfOk result (λ step. HaveArrived set.now body.now.ops round (map (meaning_of body.now.ops frames.old.store) arriving.now) frames.old frames.new step.wave.items step.failing) }
{
    let mut wave = Vec::new(alloc);
    let mut failing = None;
    for one in arriving {
        match arrive(set, body, *one, round, frames, &mut wave) {
            Ok(clash) => failing = lower(failing, clash),
            Err(why) => return Err(why),
        }
    }
    Ok(Step { failing, wave })
}
