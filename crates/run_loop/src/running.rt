//! The loop of a run.

ghost use Rattle.std.specs.Prelude.{◌≡◌, ◌≤◌};
ghost use Rattle.run_loop.specs.Ran.{Ran, Stands, Start};

use crate::step::step;
use host_face::Console;
use image_check::Checked;
use mote_model::{Ending, State, Turn};

/// Runs from the state that the memory stands for, on a budget of ticks. Takes no memory.
pub fn run_from<C: Console>(
    mote: &mut State,
    checked: &Checked,
    console: &mut C,
    ticks: u64,
) -> Ending
    ghost start: { Start }

    requires image { let at = start.at in at.image ≡ checked.now }
    requires stands { Stands start.at mote.old }
    requires heap { 64 ≤ start.heap }
    ensures ran { Ran C.left C.shown C.noted C.faults C.room start ticks console.old console.new mote.new result }
    ensures collections { mote.new.collections ≡ mote.old.collections }
{
    let mut left = ticks;
    loop {
        match step(mote, checked, console, &mut left) {
            Turn::Ends(ending) => return ending,
            Turn::On | Turn::Throws { .. } => {}
        }
    }
}
