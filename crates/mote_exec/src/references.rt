//! References: null, and those that are taken off the top.

ghost use Rattle.std.specs.Prelude.{◌≡◌, ◌≤◌, ◌<◌, ◌++◌, ◌∷◌, [], length};
ghost use Rattle.image_instr.specs.declared.insn.MInsn.TheVariants as insns;
ghost use Rattle.mote_stack.specs.Frames.{youngest_frame, with_refs, without_last, HasFreeCells};
ghost use Rattle.mote_model.specs.declared.turn.Turn.TheVariants.{On};
ghost use Rattle.split_safety.specs.Ready.{Shown};
ghost use Rattle.mote_exec.specs.Steps.{IsStep, GoesTo, stepped, with_stack};

use mote_model::{State, Turn};
use mote_stack::Region;

/// The cell of null.
pub(crate) const NULL: u16 = 0;

/// Pushes a reference, and goes on at a pc.
pub(crate) fn put_ref(mote: &mut State, next: u16, reference: u16) -> Turn
    requires frame { 0 < length mote.old.region.frames }
    requires room { HasFreeCells mote.old.region 1 }
    ensures on { result ≡ On }
    ensures stepped { mote.new ≡ with_stack mote.old (stepped mote.old.region next ((youngest_frame mote.old.region).refs ++ reference ∷ []) (youngest_frame mote.old.region).cells) }
{
    mote.region.push_ref(reference);
    mote.region.set_pc(next);
    Turn::On
}

/// Pushes null.
pub fn null(mote: &mut State, next: u16) -> Turn
    ghost shown: { Shown }

    requires { IsStep shown mote.old insns.Null next }
    ensures { GoesTo shown mote.old mote.new result }
{
    put_ref(mote, next, NULL)
}

/// Takes so many references off the top.
fn cut_refs(region: &mut Region, count: u16)
    requires frame { 0 < length region.old.frames }
    requires there { count ≤ length (youngest_frame region.old).refs }
    ensures { region.new ≡ with_refs region.old (without_last count (youngest_frame region.old).refs) }
{
    let refs = region.ref_depth();
    let cells = region.cell_depth();
    region.trim(refs - count, cells);
}

/// Takes so many references off the top, and goes on at a pc.
pub(crate) fn fall_refs(mote: &mut State, next: u16, taken: u16) -> Turn
    requires frame { 0 < length mote.old.region.frames }
    requires there { taken ≤ length (youngest_frame mote.old.region).refs }
    ensures on { result ≡ On }
    ensures stepped { mote.new ≡ with_stack mote.old (stepped mote.old.region next (without_last taken (youngest_frame mote.old.region).refs) (youngest_frame mote.old.region).cells) }
{
    cut_refs(&mut mote.region, taken);
    mote.region.set_pc(next);
    Turn::On
}

/// Removes so many references from the top.
pub fn pop_refs(mote: &mut State, next: u16, count: u8) -> Turn
    ghost shown: { Shown }

    requires { IsStep shown mote.old (insns.RPop count) next }
    ensures { GoesTo shown mote.old mote.new result }
{
    fall_refs(mote, next, u16::from(count))
}
