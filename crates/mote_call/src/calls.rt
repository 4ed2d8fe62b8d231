//! Calls of methods with code.

ghost use Rattle.std.specs.Prelude.{◌≡◌, None, Some, IsSome};
ghost use Rattle.library.specs.Natives.{native_of};
ghost use Rattle.image_instr.specs.declared.insn.MInsn.TheVariants as insns;
ghost use Rattle.mote_model.specs.SplitState.{method_at};
ghost use Rattle.split_safety.specs.Ready.{Shown, IsReady};
ghost use Rattle.mote_call.specs.Quiet.{QuietTurn};

use image_check::Checked;
use image_form::{Image, Method};
use library::FIRST_OWN;
use mote_model::{Ending, State, Turn};

/// The method with code of an id.
fn own_method(image: &Image, method: u16) -> &Method
    requires { IsSome (method_at image.now method) }
    ensures { method_at image.now method ≡ Some result.now }
{
    &image.methods.as_slice()[usize::from(method - FIRST_OWN)]
}

/// Calls a method with code: a tick, and then a frame, whose first locals are the arguments.
pub(crate) fn call_own(mote: &mut State, checked: &Checked, method: u16, left: &mut u64) -> Turn
    ghost shown: { Shown }

    requires image { shown.image ≡ checked.now }
    requires ready { IsReady shown mote.old (insns.CallS method) }
    requires own { native_of method ≡ None }
    ensures { QuietTurn shown mote.old mote.new left.old left.new result }
{
    if *left == 0 {
        return Turn::Ends(Ending::Spent);
    }
    let callee = own_method(checked.image(), method);
    let pushed = mote.region.push_frame(
        method,
        callee.ref_locals,
        callee.cell_locals,
        u16::from(callee.sig.refs),
        callee.sig.cells,
    );
    match pushed {
        Ok(()) => {
            *left -= 1;
            Turn::On
        }
        Err(why) => Turn::Ends(Ending::StackWanted {
            need: why.need,
            used: why.used,
        }),
    }
}
