//! One step of a run.

ghost use Rattle.std.specs.Prelude.{◌≡◌, true};
ghost use Rattle.split_safety.specs.Ready.{Shown, IsNext};
ghost use Rattle.split_safety.specs.Runs.{runs_so_far};
ghost use Rattle.run_loop.specs.Ran.{Stands};
ghost use Rattle.run_loop.specs.StepTurns.{StepTurn};

use host_face::Console;
use image_check::Checked;
use image_instr::{MInsn, decode_known};
use mote_call::{raise, step_call};
use mote_exec::step_plain;
use mote_model::{State, Turn};

/// The instruction at the pc of the youngest frame.
fn next_insn(mote: &State, checked: &Checked) -> MInsn
    ghost shown: { Shown }

    requires image { shown.image ≡ checked.now }
    requires stands { Stands shown mote.now }
    ensures next { IsNext shown.image shown.state result }
    ensures runs { runs_so_far result ≡ true }
{
    let code = checked.code(mote.region.method_at(0));
    decode_known(code, usize::from(mote.region.pc_at(0))).0
}

/// Does the next instruction. Where it throws, the run ends.
#[inline(always)]
pub fn step<C: Console>(
    mote: &mut State,
    checked: &Checked,
    console: &mut C,
    left: &mut u64,
) -> Turn
    ghost shown: { Shown }

    requires image { shown.image ≡ checked.now }
    requires stands { Stands shown mote.old }
    ensures { StepTurn C.left C.shown C.noted C.faults C.room shown mote.old mote.new console.old console.new left.old left.new result }
{
    let insn = next_insn(mote, checked);
    match insn {
        MInsn::Ret { .. } | MInsn::CallS { .. } => step_call(mote, checked, insn, console, left),
        _ => match step_plain(mote, checked, insn, left) {
            Turn::Throws { class } => raise(mote, class, left),
            turn => turn,
        },
    }
}
