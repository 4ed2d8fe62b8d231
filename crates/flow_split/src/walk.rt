//! The greatest number of operand cells at any instruction.

ghost use Rattle.std.specs.Prelude.{◌≡◌, ◌<◌, ℕ, map, Some, length, slice_get, IfOk, IfSome};
ghost use Rattle.code_reach.specs.Reached.{RisesFrom};
ghost use Rattle.body_form.specs.declared.op.Op.{Op as Instruction};
ghost use Rattle.body_form.specs.Flow.{pc_at};
ghost use Rattle.jvm_model.specs.WidthsShapes.{local_width, widths_of};
ghost use Rattle.jvm_model.specs.WidthsSlots.{locals_of};
ghost use Rattle.jvm_model.specs.WidthsFrame.{most_at, greatest};
ghost use Rattle.type_table.specs.Counts.{ints_in};
ghost use Rattle.type_table.specs.Types.{table_of};
ghost use Rattle.flow_split.specs.Splits.{AreEntries, AreNamed};
ghost use Rattle.flow_split.specs.Walks.{rows_before, IsRow};

use crate::most::most_of;
use crate::named::{looked_at, named_width};
use crate::points::{top_after, top_shapes};
use crate::rows::{first_from, has_row};
use crate::totals::operand_total;
use body_form::Body;
use image_instr::Width;
use jvm_model::Entry;
use std::alloc::{AllocError, Global};
use type_table::{Memory, Types};

/// The position of an instruction, and the index of the first row that is not below its pc.
#[derive(Clone, Copy, Debug)]
struct At {
    position: usize,
    index: usize,
}

/// The greatest number of operand cells at an instruction that has types; want of memory also where a number does not
/// fit.
fn most_with_row(
    alloc: Global,
    body: &Body,
    types: &Types,
    ints: &[u32],
    narrow: &[Entry],
    widths: &[Width],
    at: At,
) -> Result<u64, Memory>
    requires rise { RisesFrom 0 types.now }
    requires ints { ints.now ≡ map (λ row. ints_in row.1.stack) types.now }
    requires entries { AreEntries types.now narrow.now }
    requires widths { widths.now ≡ map (local_width narrow.now (table_of types.now) body.now.ops) (locals_of body.now) }
    requires named { AreNamed body.now types.now }
    requires position { at.position < length body.now.ops }
    requires index { at.index ≡ rows_before types.now (pc_at body.now.ops at.position) }
    requires row { IsRow types.now at.index (pc_at body.now.ops at.position) }
    ensures { IfOk result (λ most. (x : ℕ × Instruction) → slice_get body.now.ops at.position ≡ Some x → most ≡ most_at body.now (widths_of narrow.now (table_of types.now) body.now.ops) (table_of types.now) x) }
{
    let ops = body.ops.as_slice();
    let (pc, op) = &ops[at.position];
    let before = match top_shapes(alloc, types, narrow, at.index, *pc, looked_at(op)) {
        Ok(before) => before,
        Err(why) => return Err(why),
    };
    let after = match top_after(alloc, ops, types, narrow, at.index, at.position) {
        Ok(after) => after,
        Err(why) => return Err(why),
    };
    let Some(height) = operand_total(types, ints, narrow, at.index, *pc) else {
        return Err(AllocError);
    };
    match most_of(
        height,
        op,
        named_width(op, widths),
        &before,
        after,
        &body.result,
    ) {
        Some(most) => Ok(most),
        None => Err(AllocError),
    }
}

/// The greatest number of operand cells at an instruction, 0 where it has no types.
fn most_here(
    alloc: Global,
    body: &Body,
    types: &Types,
    ints: &[u32],
    narrow: &[Entry],
    widths: &[Width],
    at: At,
) -> Result<u64, Memory>
    requires rise { RisesFrom 0 types.now }
    requires ints { ints.now ≡ map (λ row. ints_in row.1.stack) types.now }
    requires entries { AreEntries types.now narrow.now }
    requires widths { widths.now ≡ map (local_width narrow.now (table_of types.now) body.now.ops) (locals_of body.now) }
    requires named { AreNamed body.now types.now }
    requires position { at.position < length body.now.ops }
    requires index { at.index ≡ rows_before types.now (pc_at body.now.ops at.position) }
    ensures { IfOk result (λ most. (x : ℕ × Instruction) → slice_get body.now.ops at.position ≡ Some x → most ≡ most_at body.now (widths_of narrow.now (table_of types.now) body.now.ops) (table_of types.now) x) }
{
    let pc = body.ops.as_slice()[at.position].0;
    if has_row(types, at.index, pc) {
        most_with_row(alloc, body, types, ints, narrow, widths, at)
    } else {
        Ok(0)
    }
}

/// The greatest number of operand cells at any instruction; want of memory also where a number does not fit.
pub(crate) fn most_anywhere(
    alloc: Global,
    body: &Body,
    types: &Types,
    narrow: &[Entry],
    widths: &[Width],
) -> Result<u64, Memory>
    requires rise { RisesFrom 0 types.now }
    requires entries { AreEntries types.now narrow.now }
    requires widths { widths.now ≡ map (local_width narrow.now (table_of types.now) body.now.ops) (locals_of body.now) }
    requires named { AreNamed body.now types.now }
    ensures { IfOk result (λ most. most ≡ greatest (map (most_at body.now (widths_of narrow.now (table_of types.now) body.now.ops) (table_of types.now)) body.now.ops)) }
{
    let ints = types.operand_counts(alloc)?;
    most_counted(alloc, body, types, ints.as_slice(), narrow, widths)
}

/// The same, by how many operands of each row are whole numbers.
fn most_counted(
    alloc: Global,
    body: &Body,
    types: &Types,
    ints: &[u32],
    narrow: &[Entry],
    widths: &[Width],
) -> Result<u64, Memory>
    requires rise { RisesFrom 0 types.now }
    requires ints { ints.now ≡ map (λ row. ints_in row.1.stack) types.now }
    requires entries { AreEntries types.now narrow.now }
    requires widths { widths.now ≡ map (local_width narrow.now (table_of types.now) body.now.ops) (locals_of body.now) }
    requires named { AreNamed body.now types.now }
    ensures { IfOk result (λ most. most ≡ greatest (map (most_at body.now (widths_of narrow.now (table_of types.now) body.now.ops) (table_of types.now)) body.now.ops)) }
{
    let ops = body.ops.as_slice();
    let mut most = 0;
    let mut index = 0;
    for position in 0..ops.len() {
        index = first_from(types, index, ops[position].0);
        let at = At { position, index };
        let here = match most_here(alloc, body, types, ints, narrow, widths, at) {
            Ok(here) => here,
            Err(why) => return Err(why),
        };
        most = here.max(most);
    }
    Ok(most)
}
