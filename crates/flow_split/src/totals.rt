//! How many cells the operands before an instruction take.

ghost use Rattle.std.specs.Prelude.{◌≡◌, true, Some, map, slice_get, IfSome};
ghost use Rattle.std.specs.List.{AllPairs, count_by};
ghost use Rattle.code_reach.specs.Reached.{RisesFrom};
ghost use Rattle.body_form.specs.declared.types.VFrame.{VFrame};
ghost use Rattle.jvm_model.specs.WidthsFrame.{operand_cells};
ghost use Rattle.type_table.specs.Counts.{ints_in};
ghost use Rattle.flow_split.specs.Splits.{AreEntries, comes_before};
ghost use Rattle.flow_split.specs.Totals.{narrow_operands, has_come, is_before_operands, shapes_before};

use jvm_model::Entry;
use type_table::Types;

/// How many entries come before the operands of the instruction at a pc.
fn entries_before(narrow: &[Entry], pc: u32) -> usize
    requires { AllPairs (λ first second. comes_before first second ≡ true) narrow.now }
    ensures { result ≡ count_by (is_before_operands pc) narrow.now }
{
    narrow.partition_point(|entry| entry.pc < pc || (entry.pc == pc && !entry.operand))
}

/// How many entries come before the next instruction.
fn entries_through(narrow: &[Entry], pc: u32) -> usize
    requires { AllPairs (λ first second. comes_before first second ≡ true) narrow.now }
    ensures { result ≡ count_by (has_come pc) narrow.now }
{
    narrow.partition_point(|entry| entry.pc <= pc)
}

/// How many operands before the instruction at a pc have one cell.
#[tactic(auto, using(crate::proofs::Parting::parts_counted))]
fn narrow_count(narrow: &[Entry], pc: u32) -> usize
    requires { AllPairs (λ first second. comes_before first second ≡ true) narrow.now }
    ensures { result ≡ narrow_operands narrow.now pc }
{
    entries_through(narrow, pc) - entries_before(narrow, pc)
}

/// The number at an index.
fn number_at(numbers: &[u32], index: usize) -> Option<u32>
    ensures { result ≡ slice_get numbers.now index }
{
    numbers.get(index).copied()
}

/// How many cells the operands of the row at an index take, whose pc this is; `None` where a number does not fit.
pub(crate) fn operand_total(
    types: &Types,
    ints: &[u32],
    narrow: &[Entry],
    index: usize,
    pc: u32,
) -> Option<u64>
    requires rise { RisesFrom 0 types.now }
    requires ints { ints.now ≡ map (λ row. ints_in row.1.stack) types.now }
    requires entries { AreEntries types.now narrow.now }
    ensures { IfSome result (λ cells. (frame : VFrame) → slice_get types.now index ≡ Some (pc, frame) → cells ≡ operand_cells (shapes_before narrow.now pc frame.stack)) }
{
    let height = match types.height_at(index) {
        Some(height) => height as u64,
        None => return None,
    };
    let whole = match number_at(ints, index) {
        Some(ints) => u64::from(ints),
        None => return None,
    };
    match height.checked_add(whole) {
        Some(most) => most.checked_sub(narrow_count(narrow, pc) as u64),
        None => None,
    }
}
