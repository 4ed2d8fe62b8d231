//! Constants.

ghost use Rattle.split_safety.specs.Ready.{Shown};
ghost use Rattle.mote_exec.specs.Steps.{IsConstant, GoesTo};

use crate::halves::put_number;
use image_instr::Width;
use mote_model::{State, Turn};

/// Pushes a constant.
pub fn constant(mote: &mut State, next: u16, width: Width, number: i32) -> Turn
    ghost shown: { Shown }

    requires { IsConstant shown mote.old next width number }
    ensures { GoesTo shown mote.old mote.new result }
{
    put_number(mote, next, 0, width, number)
}
