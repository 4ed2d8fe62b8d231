//! Numbers of one cell: made wider, and cut.

ghost use Rattle.std.specs.Prelude.{◌≡◌, ◌≤◌, ◌<◌, ◌-◌, ◌+◌, ◌++◌, ◌∷◌, [], length};
ghost use Rattle.image_instr.specs.declared.insn.MInsn.TheVariants as insns;
ghost use Rattle.mote_stack.specs.Frames.{youngest_frame, last_items, without_last};
ghost use Rattle.mote_model.specs.declared.turn.Turn.TheVariants.{On};
ghost use Rattle.split_safety.specs.Ready.{Shown};
ghost use Rattle.mote_exec.specs.Steps.{IsStep, GoesTo, stepped, with_stack};

use crate::halves::{cut, put_number};
use cell_num::{Conv, convert, sext};
use image_instr::Width;
use mote_model::{State, Turn};
use mote_stack::Region;

/// The cell on top.
pub(crate) fn top_cell(region: &Region) -> u16
    requires frame { 0 < length region.now.frames }
    requires there { 1 ≤ length (youngest_frame region.now).cells }
    ensures { result ∷ [] ≡ last_items 1 (youngest_frame region.now).cells }
{
    region.int_at(region.cell_depth() - 1)
}

/// Takes a cell off the top, pushes another one, and goes on at a pc.
fn put_cell(mote: &mut State, next: u16, cell: u16) -> Turn
    requires frame { 0 < length mote.old.region.frames }
    requires there { 1 ≤ length (youngest_frame mote.old.region).cells }
    requires room { length (youngest_frame mote.old.region).refs + (length (youngest_frame mote.old.region).cells - 1) + 1 ≤ (youngest_frame mote.old.region).body }
    ensures on { result ≡ On }
    ensures stepped { mote.new ≡ with_stack mote.old (stepped mote.old.region next (youngest_frame mote.old.region).refs (without_last 1 (youngest_frame mote.old.region).cells ++ cell ∷ [])) }
{
    cut(&mut mote.region, 1);
    mote.region.push_cell(cell);
    mote.region.set_pc(next);
    Turn::On
}

/// Makes the cell on top a number of two cells, by its sign.
pub fn extend_sign(mote: &mut State, next: u16) -> Turn
    ghost shown: { Shown }

    requires { IsStep shown mote.old insns.Sx next }
    ensures { GoesTo shown mote.old mote.new result }
{
    let number = sext(top_cell(&mote.region));
    put_number(mote, next, 1, Width::Two, number)
}

/// Makes the cell on top a number of two cells, by zero.
pub fn extend_zero(mote: &mut State, next: u16) -> Turn
    ghost shown: { Shown }

    requires { IsStep shown mote.old insns.Zx next }
    ensures { GoesTo shown mote.old mote.new result }
{
    let number = i32::from(top_cell(&mote.region));
    put_number(mote, next, 1, Width::Two, number)
}

/// Extends the sign of the low byte of the cell on top.
pub fn extend_byte(mote: &mut State, next: u16) -> Turn
    ghost shown: { Shown }

    requires { IsStep shown mote.old insns.Sb next }
    ensures { GoesTo shown mote.old mote.new result }
{
    let number = convert(Conv::Byte, sext(top_cell(&mote.region)));
    put_number(mote, next, 1, Width::One, number)
}

/// Keeps the lowest bit of the cell on top.
pub fn keep_bit(mote: &mut State, next: u16) -> Turn
    ghost shown: { Shown }

    requires { IsStep shown mote.old insns.Bit next }
    ensures { GoesTo shown mote.old mote.new result }
{
    let cell = top_cell(&mote.region);
    put_cell(mote, next, cell % 2)
}
