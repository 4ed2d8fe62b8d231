//! Numbers and references of the youngest frame: pushed, popped, and read from the top.

ghost use Rattle.std.specs.Prelude.{◌≡◌, ◌≤◌, ◌<◌, ◌-◌, ◌+◌, ◌++◌, ◌∷◌, [], length, slice_index, FitsSigned};
ghost use Rattle.std.specs.Int.{w32};
ghost use Rattle.mote_stack.specs.Frames.{youngest_frame, with_cells, without_last, last_items, HasFreeCells};
ghost use Rattle.mote_model.specs.SplitMoves.{cells_of, count_of};
ghost use Rattle.mote_model.specs.declared.turn.Turn.TheVariants.{On};
ghost use Rattle.mote_exec.specs.Steps.{number_below as number_below_of, stepped, with_stack};

use cell_num::{join, low, sext, split};
use image_instr::Width;
use mote_model::{State, Turn};
use mote_stack::Region;

/// Pushes two cells, the second on top.
pub(crate) fn push_pair(region: &mut Region, first: u16, second: u16)
    requires { HasFreeCells region.old 2 }
    ensures { region.new ≡ with_cells region.old ((youngest_frame region.old).cells ++ first ∷ second ∷ []) }
{
    region.push_cell(first);
    region.push_cell(second);
}

/// Pushes a number of a width, its high cell on top.
pub(crate) fn push_number(region: &mut Region, width: Width, number: i32)
    requires { HasFreeCells region.old (count_of width) }
    ensures { region.new ≡ with_cells region.old ((youngest_frame region.old).cells ++ cells_of width number) }
{
    match width {
        Width::One => region.push_cell(low(number)),
        Width::Two => {
            let (first, second) = split(number);
            push_pair(region, first, second);
        }
    }
}

/// The number of a width that has so many cells above it.
pub(crate) fn number_below(region: &Region, width: Width, above: u16) -> i32
    requires frame { 0 < length region.now.frames }
    requires there { above + count_of width ≤ length (youngest_frame region.now).cells }
    ensures value { result ≡ number_below_of width above (youngest_frame region.now).cells }
    ensures fits { FitsSigned w32 result }
{
    let end = region.cell_depth() - above;
    match width {
        Width::One => sext(region.int_at(end - 1)),
        Width::Two => join(region.int_at(end - 2), region.int_at(end - 1)),
    }
}

/// Takes so many cells off the top.
pub(crate) fn cut(region: &mut Region, count: u16)
    requires frame { 0 < length region.old.frames }
    requires there { count ≤ length (youngest_frame region.old).cells }
    ensures { region.new ≡ with_cells region.old (without_last count (youngest_frame region.old).cells) }
{
    let refs = region.ref_depth();
    let cells = region.cell_depth();
    region.trim(refs, cells - count);
}

/// How many cells a number of a width has.
pub(crate) fn cell_count(width: Width) -> u16
    ensures { result ≡ count_of width }
{
    match width {
        Width::One => 1,
        Width::Two => 2,
    }
}

/// Takes so many cells off the top, pushes a number, and goes on at a pc.
pub(crate) fn put_number(mote: &mut State, next: u16, taken: u16, width: Width, number: i32) -> Turn
    requires frame { 0 < length mote.old.region.frames }
    requires there { taken ≤ length (youngest_frame mote.old.region).cells }
    requires room { length (youngest_frame mote.old.region).refs + (length (youngest_frame mote.old.region).cells - taken) + count_of width ≤ (youngest_frame mote.old.region).body }
    ensures on { result ≡ On }
    ensures stepped { mote.new ≡ with_stack mote.old (stepped mote.old.region next (youngest_frame mote.old.region).refs (without_last taken (youngest_frame mote.old.region).cells ++ cells_of width number)) }
{
    cut(&mut mote.region, taken);
    push_number(&mut mote.region, width, number);
    mote.region.set_pc(next);
    Turn::On
}

/// Takes so many cells off the top, and goes on at a pc.
pub(crate) fn fall(mote: &mut State, next: u16, taken: u16) -> Turn
    requires frame { 0 < length mote.old.region.frames }
    requires there { taken ≤ length (youngest_frame mote.old.region).cells }
    ensures on { result ≡ On }
    ensures stepped { mote.new ≡ with_stack mote.old (stepped mote.old.region next (youngest_frame mote.old.region).refs (without_last taken (youngest_frame mote.old.region).cells)) }
{
    cut(&mut mote.region, taken);
    mote.region.set_pc(next);
    Turn::On
}
