//! Statics: references, and numbers of one cell or two.

ghost use Rattle.std.specs.Prelude.{◌≡◌, ◌<◌, ◌≤◌, ◌-◌, ◌+◌, ◌++◌, ◌∷◌, [], length, take, drop};
ghost use Rattle.image_instr.specs.declared.insn.Kind.TheVariants as kinds;
ghost use Rattle.image_instr.specs.declared.insn.MInsn.TheVariants as insns;
ghost use Rattle.mote_stack.specs.Frames.{youngest_frame, HasFreeCells, last_items, without_last};
ghost use Rattle.mote_model.specs.declared.turn.Turn.TheVariants.{On};
ghost use Rattle.split_safety.specs.Ready.{Shown};
ghost use Rattle.mote_exec.specs.Steps.{IsStep, GoesTo, stepped, with_stack};

use crate::halves::{fall, push_pair};
use crate::references::{fall_refs, put_ref};
use crate::small::top_cell;
use image_instr::Kind;
use mote_model::{State, Turn};
use mote_stack::Region;

/// Pushes a cell, and goes on at a pc.
fn add_cell(mote: &mut State, next: u16, cell: u16) -> Turn
    requires frame { 0 < length mote.old.region.frames }
    requires room { HasFreeCells mote.old.region 1 }
    ensures on { result ≡ On }
    ensures stepped { mote.new ≡ with_stack mote.old (stepped mote.old.region next (youngest_frame mote.old.region).refs ((youngest_frame mote.old.region).cells ++ cell ∷ [])) }
{
    mote.region.push_cell(cell);
    mote.region.set_pc(next);
    Turn::On
}

/// Pushes two cells, the second on top, and goes on at a pc.
fn add_pair(mote: &mut State, next: u16, first: u16, second: u16) -> Turn
    requires frame { 0 < length mote.old.region.frames }
    requires room { HasFreeCells mote.old.region 2 }
    ensures on { result ≡ On }
    ensures stepped { mote.new ≡ with_stack mote.old (stepped mote.old.region next (youngest_frame mote.old.region).refs ((youngest_frame mote.old.region).cells ++ first ∷ second ∷ [])) }
{
    push_pair(&mut mote.region, first, second);
    mote.region.set_pc(next);
    Turn::On
}

/// The cell at an index.
fn cell_at(cells: &Vec<u16>, at: u16) -> u16
    requires { at < length cells.now.items }
    ensures { result ∷ [] ≡ take 1 (drop at cells.now.items) }
{
    cells[usize::from(at)]
}

/// The cell at an index, and the one after it.
fn pair_at(cells: &Vec<u16>, at: u16) -> (u16, u16)
    requires { at + 1 < length cells.now.items }
    ensures { result.0 ∷ result.1 ∷ [] ≡ take 2 (drop at cells.now.items) }
{
    let first = usize::from(at);
    (cells[first], cells[first + 1])
}

/// Writes the cell at an index.
fn set_cell(cells: &mut Vec<u16>, at: u16, cell: u16)
    requires { at < length cells.old.items }
    ensures { cells.new.items ≡ take at cells.old.items ++ cell ∷ drop (at + 1) cells.old.items }
{
    cells[usize::from(at)] = cell;
}

/// Writes the cell at an index, and the one after it.
fn set_pair(cells: &mut Vec<u16>, at: u16, first: u16, second: u16)
    requires { at + 1 < length cells.old.items }
    ensures { cells.new.items ≡ take at cells.old.items ++ first ∷ second ∷ drop (at + 2) cells.old.items }
{
    let place = usize::from(at);
    cells[place] = first;
    cells[place + 1] = second;
}

/// The two cells on top, the topmost as the second.
fn top_pair(region: &Region) -> (u16, u16)
    requires frame { 0 < length region.now.frames }
    requires there { 2 ≤ length (youngest_frame region.now).cells }
    ensures { result.0 ∷ result.1 ∷ [] ≡ last_items 2 (youngest_frame region.now).cells }
{
    let depth = region.cell_depth();
    (region.int_at(depth - 2), region.int_at(depth - 1))
}

/// The reference on top.
fn top_ref(region: &Region) -> u16
    requires frame { 0 < length region.now.frames }
    requires there { 1 ≤ length (youngest_frame region.now).refs }
    ensures { result ∷ [] ≡ last_items 1 (youngest_frame region.now).refs }
{
    region.ref_at(region.ref_depth() - 1)
}

/// Pushes a static that is a reference.
fn load_ref(mote: &mut State, next: u16, at: u16) -> Turn
    ghost shown: { Shown }

    requires { IsStep shown mote.old (insns.GetS kinds.Ref at) next }
    ensures { GoesTo shown mote.old mote.new result }
{
    let reference = cell_at(&mote.ref_statics, at);
    put_ref(mote, next, reference)
}

/// Pushes a static of one cell.
fn load_cell(mote: &mut State, next: u16, at: u16) -> Turn
    ghost shown: { Shown }

    requires { IsStep shown mote.old (insns.GetS kinds.One at) next }
    ensures { GoesTo shown mote.old mote.new result }
{
    let cell = cell_at(&mote.cell_statics, at);
    add_cell(mote, next, cell)
}

/// Pushes a static of two cells.
fn load_pair(mote: &mut State, next: u16, at: u16) -> Turn
    ghost shown: { Shown }

    requires { IsStep shown mote.old (insns.GetS kinds.Two at) next }
    ensures { GoesTo shown mote.old mote.new result }
{
    let (first, second) = pair_at(&mote.cell_statics, at);
    add_pair(mote, next, first, second)
}

/// Pushes a static.
pub fn get_static(mote: &mut State, next: u16, kind: Kind, at: u16) -> Turn
    ghost shown: { Shown }

    requires { IsStep shown mote.old (insns.GetS kind at) next }
    ensures { GoesTo shown mote.old mote.new result }
{
    match kind {
        Kind::Ref => load_ref(mote, next, at),
        Kind::One => load_cell(mote, next, at),
        Kind::Two => load_pair(mote, next, at),
    }
}

/// Takes a reference off the top, which becomes a static.
fn store_ref(mote: &mut State, next: u16, at: u16) -> Turn
    ghost shown: { Shown }

    requires { IsStep shown mote.old (insns.PutS kinds.Ref at) next }
    ensures { GoesTo shown mote.old mote.new result }
{
    let reference = top_ref(&mote.region);
    set_cell(&mut mote.ref_statics, at, reference);
    fall_refs(mote, next, 1)
}

/// Takes a cell off the top, which becomes a static.
fn store_cell(mote: &mut State, next: u16, at: u16) -> Turn
    ghost shown: { Shown }

    requires { IsStep shown mote.old (insns.PutS kinds.One at) next }
    ensures { GoesTo shown mote.old mote.new result }
{
    let cell = top_cell(&mote.region);
    set_cell(&mut mote.cell_statics, at, cell);
    fall(mote, next, 1)
}

/// Takes two cells off the top, which become a static.
fn store_pair(mote: &mut State, next: u16, at: u16) -> Turn
    ghost shown: { Shown }

    requires { IsStep shown mote.old (insns.PutS kinds.Two at) next }
    ensures { GoesTo shown mote.old mote.new result }
{
    let (first, second) = top_pair(&mote.region);
    set_pair(&mut mote.cell_statics, at, first, second);
    fall(mote, next, 2)
}

/// Takes a number or a reference off the top, which becomes a static.
pub fn put_static(mote: &mut State, next: u16, kind: Kind, at: u16) -> Turn
    ghost shown: { Shown }

    requires { IsStep shown mote.old (insns.PutS kind at) next }
    ensures { GoesTo shown mote.old mote.new result }
{
    match kind {
        Kind::Ref => store_ref(mote, next, at),
        Kind::One => store_cell(mote, next, at),
        Kind::Two => store_pair(mote, next, at),
    }
}
