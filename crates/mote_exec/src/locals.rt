//! Locals: pushed, popped into, cleared and added to.

ghost use Rattle.std.specs.Prelude.{◌≡◌, ◌≤◌, ◌<◌, ◌-◌, ◌+◌, ◌++◌, ◌∷◌, [], length, slice_index, slice_set, FitsSigned};
ghost use Rattle.std.specs.Int.{w32};
ghost use Rattle.image_instr.specs.declared.insn.MInsn.TheVariants as insns;
ghost use Rattle.mote_stack.specs.Frames.{youngest_frame, with_cells, without_last, last_items, HasFreeCells};
ghost use Rattle.mote_model.specs.SplitMoves.{cells_of, count_of, number_of};
ghost use Rattle.mote_model.specs.declared.turn.Turn.TheVariants.{On};
ghost use Rattle.split_safety.specs.Ready.{Shown};
ghost use Rattle.mote_exec.specs.Locals.{part_at, with_part};
ghost use Rattle.mote_exec.specs.Steps.{IsStep, GoesTo, stepped, with_stack};

use crate::halves::{cut, push_pair};
use crate::references::NULL;
use cell_num::{join, low, sext, split};
use image_instr::{Kind, Width};
use mote_model::{State, Turn};
use mote_stack::Region;

/// Pushes a reference local, and goes on at a pc.
fn push_ref_local(mote: &mut State, next: u16, local: u16) -> Turn
    requires frame { 0 < length mote.old.region.frames }
    requires there { local < length (youngest_frame mote.old.region).refs }
    requires room { HasFreeCells mote.old.region 1 }
    ensures on { result ≡ On }
    ensures stepped { mote.new ≡ with_stack mote.old (stepped mote.old.region next ((youngest_frame mote.old.region).refs ++ slice_index (youngest_frame mote.old.region).refs local ∷ []) (youngest_frame mote.old.region).cells) }
{
    let reference = mote.region.ref_at(local);
    mote.region.push_ref(reference);
    mote.region.set_pc(next);
    Turn::On
}

/// Pushes the cells of a local.
fn push_cells_at(region: &mut Region, width: Width, local: u16)
    requires frame { 0 < length region.old.frames }
    requires there { local + count_of width ≤ length (youngest_frame region.old).cells }
    requires room { HasFreeCells region.old (count_of width) }
    ensures { region.new ≡ with_cells region.old ((youngest_frame region.old).cells ++ part_at local (count_of width) (youngest_frame region.old).cells) }
{
    let _depth = region.cell_depth();
    match width {
        Width::One => {
            let cell = region.int_at(local);
            region.push_cell(cell);
        }
        Width::Two => {
            let first = region.int_at(local);
            let second = region.int_at(local + 1);
            push_pair(region, first, second);
        }
    }
}

/// Pushes the cells of a local, and goes on at a pc.
fn push_cell_local(mote: &mut State, next: u16, width: Width, local: u16) -> Turn
    requires frame { 0 < length mote.old.region.frames }
    requires there { local + count_of width ≤ length (youngest_frame mote.old.region).cells }
    requires room { HasFreeCells mote.old.region (count_of width) }
    ensures on { result ≡ On }
    ensures stepped { mote.new ≡ with_stack mote.old (stepped mote.old.region next (youngest_frame mote.old.region).refs ((youngest_frame mote.old.region).cells ++ part_at local (count_of width) (youngest_frame mote.old.region).cells)) }
{
    push_cells_at(&mut mote.region, width, local);
    mote.region.set_pc(next);
    Turn::On
}

/// Pops a reference into a local, and goes on at a pc.
fn pop_ref_local(mote: &mut State, next: u16, local: u16) -> Turn
    requires frame { 0 < length mote.old.region.frames }
    requires there { local + 1 < length (youngest_frame mote.old.region).refs }
    ensures on { result ≡ On }
    ensures stepped { let refs = (youngest_frame mote.old.region).refs in mote.new ≡ with_stack mote.old (stepped mote.old.region next (slice_set (without_last 1 refs) local (slice_index refs (length refs - 1))) (youngest_frame mote.old.region).cells) }
{
    let reference = mote.region.pop_ref();
    mote.region.set_ref(local, reference);
    mote.region.set_pc(next);
    Turn::On
}

/// Writes a reference local, and goes on at a pc.
fn set_ref_local(mote: &mut State, next: u16, local: u16, reference: u16) -> Turn
    requires frame { 0 < length mote.old.region.frames }
    requires there { local < length (youngest_frame mote.old.region).refs }
    ensures on { result ≡ On }
    ensures stepped { mote.new ≡ with_stack mote.old (stepped mote.old.region next (slice_set (youngest_frame mote.old.region).refs local reference) (youngest_frame mote.old.region).cells) }
{
    mote.region.set_ref(local, reference);
    mote.region.set_pc(next);
    Turn::On
}

/// Writes a cell of the youngest frame.
fn set_cell(region: &mut Region, local: u16, cell: u16)
    requires there { local < length (youngest_frame region.old).cells }
    ensures { region.new ≡ with_cells region.old (with_part (youngest_frame region.old).cells local (cell ∷ [])) }
{
    region.set_int(local, cell);
}

/// Writes two cells of the youngest frame.
fn set_pair(region: &mut Region, local: u16, first: u16, second: u16)
    requires frame { 0 < length region.old.frames }
    requires there { local + 1 < length (youngest_frame region.old).cells }
    ensures { region.new ≡ with_cells region.old (with_part (youngest_frame region.old).cells local (first ∷ second ∷ [])) }
{
    let _depth = region.cell_depth();
    region.set_int(local, first);
    region.set_int(local + 1, second);
}

/// Takes two cells off the top; the second was on top.
fn pop_pair(region: &mut Region) -> (u16, u16)
    requires frame { 0 < length region.old.frames }
    requires there { 2 ≤ length (youngest_frame region.old).cells }
    ensures pair { result.0 ∷ result.1 ∷ [] ≡ last_items 2 (youngest_frame region.old).cells }
    ensures after { region.new ≡ with_cells region.old (without_last 2 (youngest_frame region.old).cells) }
{
    let end = region.cell_depth();
    let first = region.int_at(end - 2);
    let second = region.int_at(end - 1);
    cut(region, 2);
    (first, second)
}

/// Takes the cells of a local off the top, and writes them there.
fn pop_cells_at(region: &mut Region, width: Width, local: u16)
    requires frame { 0 < length region.old.frames }
    requires there { local + count_of width + count_of width ≤ length (youngest_frame region.old).cells }
    ensures { region.new ≡ with_cells region.old (with_part (without_last (count_of width) (youngest_frame region.old).cells) local (last_items (count_of width) (youngest_frame region.old).cells)) }
{
    match width {
        Width::One => {
            let cell = region.pop_cell();
            set_cell(region, local, cell);
        }
        Width::Two => {
            let (first, second) = pop_pair(region);
            set_pair(region, local, first, second);
        }
    }
}

/// Takes the cells of a local off the top, writes them there, and goes on at a pc.
fn pop_cell_local(mote: &mut State, next: u16, width: Width, local: u16) -> Turn
    requires frame { 0 < length mote.old.region.frames }
    requires there { local + count_of width + count_of width ≤ length (youngest_frame mote.old.region).cells }
    ensures on { result ≡ On }
    ensures stepped { mote.new ≡ with_stack mote.old (stepped mote.old.region next (youngest_frame mote.old.region).refs (with_part (without_last (count_of width) (youngest_frame mote.old.region).cells) local (last_items (count_of width) (youngest_frame mote.old.region).cells))) }
{
    pop_cells_at(&mut mote.region, width, local);
    mote.region.set_pc(next);
    Turn::On
}

/// The number of a local.
fn number_at(region: &Region, width: Width, local: u16) -> i32
    requires frame { 0 < length region.now.frames }
    requires there { local + count_of width ≤ length (youngest_frame region.now).cells }
    ensures value { result ≡ number_of (part_at local (count_of width) (youngest_frame region.now).cells) }
    ensures fits { FitsSigned w32 result }
{
    let _depth = region.cell_depth();
    match width {
        Width::One => sext(region.int_at(local)),
        Width::Two => join(region.int_at(local), region.int_at(local + 1)),
    }
}

/// Writes a number into a local.
fn set_number(region: &mut Region, width: Width, local: u16, number: i32)
    requires frame { 0 < length region.old.frames }
    requires there { local + count_of width ≤ length (youngest_frame region.old).cells }
    ensures { region.new ≡ with_cells region.old (with_part (youngest_frame region.old).cells local (cells_of width number)) }
{
    match width {
        Width::One => set_cell(region, local, low(number)),
        Width::Two => {
            let (first, second) = split(number);
            set_pair(region, local, first, second);
        }
    }
}

/// Writes a number into a local, and goes on at a pc.
fn set_number_local(mote: &mut State, next: u16, width: Width, local: u16, number: i32) -> Turn
    requires frame { 0 < length mote.old.region.frames }
    requires there { local + count_of width ≤ length (youngest_frame mote.old.region).cells }
    ensures on { result ≡ On }
    ensures stepped { mote.new ≡ with_stack mote.old (stepped mote.old.region next (youngest_frame mote.old.region).refs (with_part (youngest_frame mote.old.region).cells local (cells_of width number))) }
{
    set_number(&mut mote.region, width, local, number);
    mote.region.set_pc(next);
    Turn::On
}

/// Pushes a local.
pub fn load(mote: &mut State, next: u16, kind: Kind, local: u16) -> Turn
    ghost shown: { Shown }

    requires { IsStep shown mote.old (insns.Load kind local) next }
    ensures { GoesTo shown mote.old mote.new result }
{
    match kind {
        Kind::Ref => push_ref_local(mote, next, local),
        Kind::One => push_cell_local(mote, next, Width::One, local),
        Kind::Two => push_cell_local(mote, next, Width::Two, local),
    }
}

/// Pops into a local.
pub fn store(mote: &mut State, next: u16, kind: Kind, local: u16) -> Turn
    ghost shown: { Shown }

    requires { IsStep shown mote.old (insns.Store kind local) next }
    ensures { GoesTo shown mote.old mote.new result }
{
    match kind {
        Kind::Ref => pop_ref_local(mote, next, local),
        Kind::One => pop_cell_local(mote, next, Width::One, local),
        Kind::Two => pop_cell_local(mote, next, Width::Two, local),
    }
}

/// Makes a reference local null.
pub fn clear(mote: &mut State, next: u16, local: u16) -> Turn
    ghost shown: { Shown }

    requires { IsStep shown mote.old (insns.RClear local) next }
    ensures { GoesTo shown mote.old mote.new result }
{
    set_ref_local(mote, next, local, NULL)
}

/// Adds to the number of a local, wrapped to 32 bits.
pub fn increment(mote: &mut State, next: u16, width: Width, local: u16, amount: i16) -> Turn
    ghost shown: { Shown }

    requires { IsStep shown mote.old (insns.Inc width local amount) next }
    ensures { GoesTo shown mote.old mote.new result }
{
    let number = number_at(&mote.region, width, local);
    let sum = number.wrapping_add(i32::from(amount));
    set_number_local(mote, next, width, local, sum)
}
