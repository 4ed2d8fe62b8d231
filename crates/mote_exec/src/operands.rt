//! Operands that are removed.

ghost use Rattle.image_instr.specs.declared.insn.MInsn.TheVariants as insns;
ghost use Rattle.split_safety.specs.Ready.{Shown};
ghost use Rattle.mote_exec.specs.Steps.{IsStep, GoesTo};

use crate::halves::fall;
use mote_model::{State, Turn};

/// Removes so many cells from the top.
pub fn pop(mote: &mut State, next: u16, count: u16) -> Turn
    ghost shown: { Shown }

    requires { IsStep shown mote.old (insns.Pop count) next }
    ensures { GoesTo shown mote.old mote.new result }
{
    fall(mote, next, count)
}

/// Removes the cell that has so many cells above it.
pub fn drop_below(mote: &mut State, next: u16, above: u16) -> Turn
    ghost shown: { Shown }

    requires { IsStep shown mote.old (insns.Drop above) next }
    ensures { GoesTo shown mote.old mote.new result }
{
    mote.region.drop_at(above);
    mote.region.set_pc(next);
    Turn::On
}
