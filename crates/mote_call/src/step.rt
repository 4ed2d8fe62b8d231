//! A step that calls or returns.

ghost use Rattle.std.specs.Prelude.{◌≡◌, true};
ghost use Rattle.split_safety.specs.Ready.{Shown, IsReady};
ghost use Rattle.split_safety.specs.Runs.{is_static_call};
ghost use Rattle.mote_call.specs.CallTurns.{CallTurn};

use crate::calls::call_own;
use crate::natives::{print, read_byte, write};
use crate::returns::step_return;
use host_face::Console;
use image_check::Checked;
use image_instr::MInsn;
use library::Native;
use mote_model::{State, Turn};

/// Does a return, a call of a static method with code, or a call of write, read or print. A call takes a tick, whose
/// want is told before that of the stack.
pub fn step_call<C: Console>(
    mote: &mut State,
    checked: &Checked,
    insn: MInsn,
    console: &mut C,
    left: &mut u64,
) -> Turn
    ghost shown: { Shown }

    requires image { shown.image ≡ checked.now }
    requires ready { IsReady shown mote.old insn }
    requires call { is_static_call insn ≡ true }
    ensures { CallTurn C.left C.shown C.noted C.faults C.room shown mote.old mote.new console.old console.new left.old left.new result }
{
    match insn {
        MInsn::Ret { result } => step_return(mote, checked, result),
        MInsn::CallS { method } => match Native::of_number(method) {
            Some(Native::Write) => write(mote, checked, console, left),
            Some(Native::Read) => read_byte(mote, checked, console, left),
            Some(Native::Print) => print(mote, checked, console, left),
            Some(Native::Construct) => unreachable!(),
            None => call_own(mote, checked, method, left),
        },
        _ => unreachable!(),
    }
}
