//! The rounds by which types are inferred. A round sends the frames that the last one changed, the wave, and merges
//! them into what is known; all that other instructions send is below what is known already.

ghost use Rattle.std.specs.Prelude.{◌≡◌, suc, ◌<◌, None, length, IfOk};
ghost use Rattle.std.specs.List.{AllByRecursion};
ghost use Rattle.class_tree.specs.Tree.{Gathers};
ghost use Rattle.jvm_model.specs.TypesNames.{IsOfSet};
ghost use Rattle.flow_verify.specs.KnownFrames.{AreKept};
ghost use Rattle.flow_verify.specs.Outcomes.{IsOutcome, IsRound};

use crate::arriving::arrive_all;
use crate::frames::{Frames, Step};
use crate::lowest::lower;
use crate::sending::send_wave;
use crate::start::start;
use body_form::Body;
use class_tree::ClassSet;
use std::alloc::{AllocError, Global};
use type_table::Memory;

/// What rounds come to.
#[derive(Debug, Drop)]
pub(crate) enum Outcome {
    /// A round that changes nothing, with what is known then.
    Quiet(Frames),
    /// The lowest pc at which the first round that fails does so.
    Failing(u32),
}

/// One round, with this number.
fn one_round(
    alloc: Global,
    set: &ClassSet,
    body: &Body,
    round: u32,
    frames: &mut Frames,
    wave: &[usize],
) -> Result<Step, Memory>
    requires closed { Gathers set.now None }
    requires names { IsOfSet set.now body.now }
    requires kept { AreKept set.now (length body.now.ops) round frames.old.store frames.old.known.items }
    requires wave { AllByRecursion (λ position. position < length body.now.ops) wave.now }
    requires next { round < 4294967295 }
    ensures { IfOk result (λ step. IsRound set.now body.now round frames.old frames.new wave.now step.wave.items step.failing) }
{
    let sending = send_wave(
        alloc,
        set,
        body,
        wave,
        frames.known.as_slice(),
        &mut frames.store,
    )?;
    let step = arrive_all(
        alloc,
        set,
        body,
        sending.arriving.as_slice(),
        round + 1,
        frames,
    )?;
    Ok(Step {
        failing: lower(sending.failing, step.failing),
        wave: step.wave,
    })
}

/// Rounds until one fails or changes nothing. After 4,294,967,295 rounds, which no body needs, the answer is want of
/// memory.
pub(crate) fn infer(alloc: Global, set: &ClassSet, body: &Body) -> Result<Outcome, Memory>
    requires closed { Gathers set.now None }
    requires names { IsOfSet set.now body.now }
    ensures { IfOk result (IsOutcome set.now body.now) }
{
    let first = start(alloc, set, body)?;
    let mut frames = first.frames;
    let mut wave = first.wave;
    for round in 0..u32::MAX {
        let step = match one_round(alloc, set, body, round, &mut frames, wave.as_slice()) {
            Ok(step) => step,
            Err(why) => return Err(why),
        };
        if let Some(pc) = step.failing {
            return Ok(Outcome::Failing(pc));
        }
        if step.wave.is_empty() {
            return Ok(Outcome::Quiet(frames));
        }
        wave = step.wave;
    }
    Err(AllocError)
}
