//! Switches and tables.

ghost use Rattle.split_safety.specs.Ready.{Shown};
ghost use Rattle.mote_exec.specs.Steps.{IsChoice, StepsTo};

use crate::halves::{cell_count, number_below};
use crate::jumps::jump;
use image_instr::{Width, switch_target};
use mote_model::{State, Turn};

/// Goes where the switch or the table at the pc jumps for the number on top. `code` is that of the youngest frame's
/// method.
pub fn choose(mote: &mut State, code: &[u8], width: Width, left: &mut u64) -> Turn
    ghost shown: { Shown }

    requires { IsChoice shown mote.old code.now width }
    ensures { StepsTo shown mote.old mote.new left.old left.new result }
{
    let key = number_below(&mote.region, width, 0);
    let pc = usize::from(mote.region.pc_at(0));
    let target = switch_target(code, pc, key);
    jump(mote, cell_count(width), target, left)
}
