//! Jumps, of which those to a pc that is not after their instruction are ticks.

ghost use Rattle.std.specs.Prelude.{◌≡◌, ◌≤◌, ◌<◌, length};
ghost use Rattle.image_instr.specs.declared.insn.MInsn.TheVariants as insns;
ghost use Rattle.mote_model.specs.Numbers.{cond_of};
ghost use Rattle.mote_stack.specs.Frames.{youngest_frame};
ghost use Rattle.split_safety.specs.Ready.{Shown};
ghost use Rattle.mote_exec.specs.Steps.{IsStep, IsTaken, Jumps, StepsTo};

use crate::halves::{cell_count, cut, fall, number_below};
use cell_num::{Cond, holds};
use image_instr::{Condition, Width};
use mote_model::{Ending, State, Turn};

/// Takes one of the ticks that are left, where a jump is a tick; false where none is left.
pub(crate) fn take_tick(pc: u16, target: u16, left: &mut u64) -> bool
    ensures { IsTaken pc target left.old left.new result }
{
    if pc < target {
        return true;
    }
    if *left == 0 {
        return false;
    }
    *left -= 1;
    true
}

/// Takes so many cells off the top, and goes to a pc.
pub(crate) fn jump(mote: &mut State, taken: u16, target: u16, left: &mut u64) -> Turn
    requires frame { 0 < length mote.old.region.frames }
    requires there { taken ≤ length (youngest_frame mote.old.region).cells }
    ensures { Jumps mote.old mote.new taken target left.old left.new result }
{
    if !take_tick(mote.region.pc_at(0), target, left) {
        return Turn::Ends(Ending::Spent);
    }
    cut(&mut mote.region, taken);
    mote.region.set_pc(target);
    Turn::On
}

/// Goes to a pc.
pub fn goto(mote: &mut State, next: u16, target: u16, left: &mut u64) -> Turn
    ghost shown: { Shown }

    requires { IsStep shown mote.old (insns.Goto target) next }
    ensures { StepsTo shown mote.old mote.new left.old left.new result }
{
    jump(mote, 0, target, left)
}

/// The condition on ints that an instruction names.
fn comparison(condition: Condition) -> Cond
    ensures { result ≡ cond_of condition }
{
    match condition {
        Condition::Eq => Cond::Eq,
        Condition::Ne => Cond::Ne,
        Condition::Lt => Cond::Lt,
        Condition::Ge => Cond::Ge,
        Condition::Gt => Cond::Gt,
        Condition::Le => Cond::Le,
    }
}

/// Goes to a pc where the number on top compares so with 0.
pub fn jump_if_zero(
    mote: &mut State,
    next: u16,
    width: Width,
    condition: Condition,
    target: u16,
    left: &mut u64,
) -> Turn
    ghost shown: { Shown }

    requires { IsStep shown mote.old (insns.Jz width condition target) next }
    ensures { StepsTo shown mote.old mote.new left.old left.new result }
{
    let count = cell_count(width);
    let number = number_below(&mote.region, width, 0);
    if holds(comparison(condition), number, 0) {
        jump(mote, count, target, left)
    } else {
        fall(mote, next, count)
    }
}

/// Goes to a pc where the two numbers on top compare so.
pub fn jump_if_compared(
    mote: &mut State,
    next: u16,
    width: Width,
    condition: Condition,
    target: u16,
    left: &mut u64,
) -> Turn
    ghost shown: { Shown }

    requires { IsStep shown mote.old (insns.JCmp width condition target) next }
    ensures { StepsTo shown mote.old mote.new left.old left.new result }
{
    let count = cell_count(width);
    let right = number_below(&mote.region, width, 0);
    let first = number_below(&mote.region, width, count);
    if holds(comparison(condition), first, right) {
        jump(mote, 2 * count, target, left)
    } else {
        fall(mote, next, 2 * count)
    }
}
