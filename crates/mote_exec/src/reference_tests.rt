//! Jumps by a test of references.

ghost use Rattle.std.specs.Prelude.{◌≡◌, ◌≤◌, ◌<◌, length};
ghost use Rattle.image_instr.specs.declared.insn.MInsn.TheVariants as insns;
ghost use Rattle.image_instr.specs.Effect.{tested_refs};
ghost use Rattle.mote_stack.specs.Frames.{youngest_frame, last_items};
ghost use Rattle.split_safety.specs.Ready.{Shown};
ghost use Rattle.mote_exec.specs.ReferenceTests.{is_met as is_met_by};
ghost use Rattle.mote_exec.specs.Steps.{IsStep, StepsTo};

use crate::jumps::take_tick;
use crate::references::{NULL, fall_refs};
use image_instr::RefTest;
use mote_model::{Ending, State, Turn};
use mote_stack::Region;

/// How many references a test takes.
fn tested_count(test: RefTest) -> u16
    ensures { result ≡ tested_refs test }
{
    match test {
        RefTest::Equal | RefTest::NotEqual => 2,
        RefTest::Null | RefTest::NonNull => 1,
    }
}

/// The references on top meet a test.
fn is_met(region: &Region, test: RefTest) -> bool
    requires frame { 0 < length region.now.frames }
    requires there { tested_refs test ≤ length (youngest_frame region.now).refs }
    ensures { result ≡ is_met_by test (last_items (tested_refs test) (youngest_frame region.now).refs) }
{
    let depth = region.ref_depth();
    match test {
        RefTest::Equal => region.ref_at(depth - 2) == region.ref_at(depth - 1),
        RefTest::NotEqual => region.ref_at(depth - 2) != region.ref_at(depth - 1),
        RefTest::Null => region.ref_at(depth - 1) == NULL,
        RefTest::NonNull => region.ref_at(depth - 1) != NULL,
    }
}

/// Goes to a pc where the references on top meet a test.
pub fn jump_if_reference(
    mote: &mut State,
    next: u16,
    test: RefTest,
    target: u16,
    left: &mut u64,
) -> Turn
    ghost shown: { Shown }

    requires { IsStep shown mote.old (insns.RJ test target) next }
    ensures { StepsTo shown mote.old mote.new left.old left.new result }
{
    let count = tested_count(test);
    if !is_met(&mote.region, test) {
        return fall_refs(mote, next, count);
    }
    if !take_tick(mote.region.pc_at(0), target, left) {
        return Turn::Ends(Ending::Spent);
    }
    fall_refs(mote, target, count)
}
