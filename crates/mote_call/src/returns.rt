//! Returns. The return of the oldest frame, which is main's, ends the run.

ghost use Rattle.std.specs.Prelude.{◌≡◌, None, Some};
ghost use Rattle.image_instr.specs.declared.insn.Kind.TheVariants as kind;
ghost use Rattle.image_instr.specs.declared.insn.MInsn.TheVariants as insns;
ghost use Rattle.split_safety.specs.Ready.{Shown, IsReady};
ghost use Rattle.mote_call.specs.Quiet.{QuietStep};

use crate::leave::{leave, leave_cell, leave_pair, leave_ref};
use image_check::Checked;
use image_instr::Kind;
use mote_model::{Ending, State, Turn};

/// Returns without a result.
fn return_nothing(mote: &mut State, checked: &Checked) -> Turn
    ghost shown: { Shown }

    requires image { shown.image ≡ checked.now }
    requires ready { IsReady shown mote.old (insns.Ret None) }
    ensures { QuietStep shown mote.old mote.new result }
{
    if mote.region.frame_count() == 1 {
        return Turn::Ends(Ending::Done);
    }
    leave(&mut mote.region, checked);
    Turn::On
}

/// Returns a reference.
fn return_ref(mote: &mut State, checked: &Checked) -> Turn
    ghost shown: { Shown }

    requires image { shown.image ≡ checked.now }
    requires ready { IsReady shown mote.old (insns.Ret (Some kind.Ref)) }
    ensures { QuietStep shown mote.old mote.new result }
{
    if mote.region.frame_count() == 1 {
        return Turn::Ends(Ending::Done);
    }
    leave_ref(&mut mote.region, checked);
    Turn::On
}

/// Returns a number of one cell.
fn return_cell(mote: &mut State, checked: &Checked) -> Turn
    ghost shown: { Shown }

    requires image { shown.image ≡ checked.now }
    requires ready { IsReady shown mote.old (insns.Ret (Some kind.One)) }
    ensures { QuietStep shown mote.old mote.new result }
{
    if mote.region.frame_count() == 1 {
        return Turn::Ends(Ending::Done);
    }
    leave_cell(&mut mote.region, checked);
    Turn::On
}

/// Returns a number of two cells.
fn return_pair(mote: &mut State, checked: &Checked) -> Turn
    ghost shown: { Shown }

    requires image { shown.image ≡ checked.now }
    requires ready { IsReady shown mote.old (insns.Ret (Some kind.Two)) }
    ensures { QuietStep shown mote.old mote.new result }
{
    if mote.region.frame_count() == 1 {
        return Turn::Ends(Ending::Done);
    }
    leave_pair(&mut mote.region, checked);
    Turn::On
}

/// Returns a result of a kind, or none.
pub(crate) fn step_return(mote: &mut State, checked: &Checked, kept: Option<Kind>) -> Turn
    ghost shown: { Shown }

    requires image { shown.image ≡ checked.now }
    requires ready { IsReady shown mote.old (insns.Ret kept) }
    ensures { QuietStep shown mote.old mote.new result }
{
    match kept {
        None => return_nothing(mote, checked),
        Some(Kind::Ref) => return_ref(mote, checked),
        Some(Kind::One) => return_cell(mote, checked),
        Some(Kind::Two) => return_pair(mote, checked),
    }
}
