//! How many cells the whole numbers of each local have.

ghost use Rattle.std.specs.Prelude.{◌≡◌, ◌||◌, ◌-◌, ℕ, Bool, true, false, nat_eq, length, map, IfOk};
ghost use Rattle.std.specs.Option.{option_map_or};
ghost use Rattle.std.specs.List.{list_any, AllPairs};
ghost use Rattle.code_reach.specs.Reached.{RisesFrom};
ghost use Rattle.jvm_model.specs.TypesRight.{Table};
ghost use Rattle.jvm_model.specs.WidthsShapes.{height_at, is_local_entry, stores_one, local_width, width_where};
ghost use Rattle.jvm_model.specs.WidthsSlots.{locals_of};
ghost use Rattle.type_table.specs.Types.{table_of};
ghost use Rattle.flow_split.specs.Splits.{comes_before};
ghost use Rattle.flow_split.specs.Shares.{AreMarks};

use crate::entries::has_entry;
use crate::heights::heights;
use crate::marks::mark;
use body_form::{Body, Op};
use image_instr::Width;
use insn_form::ValueKind;
use jvm_model::Entry;
use std::alloc::{AllocError, Global};
use type_table::Types;

/// The local that an entry is of.
fn local_of(entry: Entry) -> Option<u16>
    ensures { (local : ℕ) → is_local_entry local entry ≡ option_map_or (λ other. nat_eq other local) result false }
{
    if entry.operand {
        None
    } else {
        Some(entry.place)
    }
}

/// Marks the locals that have entries.
fn mark_entries(marks: &mut Vec<bool>, narrow: &[Entry])
    ensures { (count : ℕ) (test : ℕ → Bool) → AreMarks count test marks.old.items → AreMarks count (λ local. test local || list_any (is_local_entry local) narrow.now) marks.new.items }
{
    for entry in narrow {
        mark(marks, local_of(*entry));
    }
}

/// The local in which an instruction stores an int of one cell, where so many operands stand before it.
fn one_stored_in(narrow: &[Entry], pc: u32, op: &Op, height: usize) -> Option<u16>
    requires { AllPairs (λ first second. comes_before first second ≡ true) narrow.now }
    ensures { (table : Table) (local : ℕ) → height_at table pc ≡ height → stores_one narrow.now table local (pc, op.now) ≡ option_map_or (λ other. nat_eq other local) result false }
{
    match op {
        Op::Store(ValueKind::Int, local) => {
            if has_entry(narrow, pc, true, height.saturating_sub(1)) {
                Some(*local)
            } else {
                None
            }
        }
        _ => None,
    }
}

/// Marks the locals in which ints of one cell are stored; so many operands stand before each instruction.
fn mark_narrow(marks: &mut Vec<bool>, narrow: &[Entry], ops: &[(u32, Op)], heights: &[usize])
    requires { AllPairs (λ first second. comes_before first second ≡ true) narrow.now }
    ensures { (table : Table) (count : ℕ) (test : ℕ → Bool) → heights.now ≡ map (λ x. height_at table x.0) ops.now → AreMarks count test marks.old.items → AreMarks count (λ local. test local || list_any (stores_one narrow.now table local) ops.now) marks.new.items }
{
    for index in 0..ops.len().min(heights.len()) {
        let x = &ops[index];
        mark(marks, one_stored_in(narrow, x.0, &x.1, heights[index]));
    }
}

/// The width of a local that is marked, or is not.
fn width_of(mark: bool) -> Width
    ensures { result ≡ width_where mark }
{
    if mark { Width::One } else { Width::Two }
}

/// The widths of locals by their marks.
fn widths_by(alloc: Global, marks: &[bool]) -> Result<Vec<Width>, AllocError>
    ensures { IfOk result (λ widths. widths.items ≡ map width_where marks.now) }
{
    let mut widths = Vec::new(alloc);
    for mark in marks {
        match widths.push(width_of(*mark)) {
            Ok(()) => {}
            Err(why) => return Err(why.into()),
        }
    }
    Ok(widths)
}

/// The width of each local, where the list of the whole numbers of one cell is in order, and so many operands stand
/// before each instruction.
pub(crate) fn widths_at(
    alloc: Global,
    body: &Body,
    narrow: &[Entry],
    heights: &[usize],
) -> Result<Vec<Width>, AllocError>
    requires { AllPairs (λ first second. comes_before first second ≡ true) narrow.now }
    ensures { IfOk result (λ widths. (table : Table) → heights.now ≡ map (λ x. height_at table x.0) body.now.ops → widths.items ≡ map (local_width narrow.now table body.now.ops) (locals_of body.now)) }
{
    let mut marks = vec![in alloc; false; usize::from(body.max_locals)]?;
    mark_entries(&mut marks, narrow);
    mark_narrow(&mut marks, narrow, body.ops.as_slice(), heights);
    widths_by(alloc, marks.as_slice())
}

/// The width of each local; in time by the instructions, the entries and the rows.
pub(crate) fn local_widths(
    alloc: Global,
    body: &Body,
    types: &Types,
    narrow: &[Entry],
) -> Result<Vec<Width>, AllocError>
    requires rise { RisesFrom 0 types.now }
    requires order { AllPairs (λ first second. comes_before first second ≡ true) narrow.now }
    ensures is { IfOk result (λ widths. widths.items ≡ map (local_width narrow.now (table_of types.now) body.now.ops) (locals_of body.now)) }
    ensures size { IfOk result (λ widths. length widths.items ≡ body.now.max_locals) }
{
    let heights = heights(alloc, body.ops.as_slice(), types)?;
    widths_at(alloc, body, narrow, heights.as_slice())
}
