//! What is around an instruction.

ghost use Rattle.std.specs.Prelude.{◌≡◌, ◌<◌, ◌+◌, ◌++◌, [], true, List, Some, take, length, slice_get, IfOk};
ghost use Rattle.std.specs.Option.{option_map_or};
ghost use Rattle.std.specs.List.{AllPairs};
ghost use Rattle.code_reach.specs.Reached.{RisesFrom};
ghost use Rattle.body_form.specs.declared.types.VType.{VType as Known};
ghost use Rattle.body_form.specs.declared.types.VFrame.{VFrame as Frame};
ghost use Rattle.body_form.specs.Flow.{pc_at};
ghost use Rattle.jvm_model.specs.WidthsShapes.{shape_of, width_where, pc_after};
ghost use Rattle.jvm_model.specs.ImageExpansion.{top_of};
ghost use Rattle.type_table.specs.Types.{table_of};
ghost use Rattle.flow_split.specs.Splits.{comes_before};
ghost use Rattle.flow_split.specs.Totals.{shapes_before};
ghost use Rattle.flow_split.specs.Walks.{rows_before, shapes_where};

use crate::entries::has_entry;
use crate::restacking::top;
use crate::rows::{first_from, has_row};
use body_form::{Op, VType};
use image_instr::Kind as Shape;
use jvm_model::Entry;
use std::alloc::Global;
use type_table::{Memory, Types};

/// What an operand is kept in, where a whole number has one cell or two.
fn shape(value: VType, one: bool) -> Shape
    ensures { result ≡ shape_of (width_where one) value }
{
    match value {
        VType::Int if one => Shape::One,
        VType::Int => Shape::Two,
        _ => Shape::Ref,
    }
}

/// The shapes of the top operands of so many before the instruction at a pc.
fn shapes_from(
    alloc: Global,
    narrow: &[Entry],
    pc: u32,
    height: usize,
    values: &[VType],
) -> Result<Vec<Shape>, Memory>
    requires { AllPairs (λ first second. comes_before first second ≡ true) narrow.now }
    ensures { IfOk result (λ shapes. (rest : List Known) → length (values.now ++ rest) ≡ height → shapes.items ≡ take (length values.now) (shapes_before narrow.now pc (values.now ++ rest))) }
{
    let mut shapes = Vec::new(alloc);
    for position in 0..values.len() {
        let place = height.saturating_sub(position + 1);
        shapes.push(shape(values[position], has_entry(narrow, pc, true, place)))?;
    }
    Ok(shapes)
}

/// The shapes of the top so many operands of the row at an index, whose pc this is, the top first; as many as there are.
pub(crate) fn top_shapes(
    alloc: Global,
    types: &Types,
    narrow: &[Entry],
    index: usize,
    pc: u32,
    count: usize,
) -> Result<Vec<Shape>, Memory>
    requires { AllPairs (λ first second. comes_before first second ≡ true) narrow.now }
    ensures { IfOk result (λ shapes. (frame : Frame) → slice_get types.now index ≡ Some (pc, frame) → shapes.items ≡ take count (shapes_before narrow.now pc frame.stack)) }
{
    let height = types.height_at(index).unwrap_or(0);
    let values = types.top_operands(alloc, index, count)?;
    shapes_from(alloc, narrow, pc, height, values.as_slice())
}

/// The shape of the top operand before the instruction at a pc, that of a reference where there is none; the index is
/// that of the first row that is not below the pc.
fn top_before(
    alloc: Global,
    types: &Types,
    narrow: &[Entry],
    index: usize,
    pc: u32,
) -> Result<Shape, Memory>
    requires rise { RisesFrom 0 types.now }
    requires order { AllPairs (λ first second. comes_before first second ≡ true) narrow.now }
    requires index { index ≡ rows_before types.now pc }
    ensures { IfOk result (λ shape. shape ≡ top_of (shapes_where narrow.now (table_of types.now) pc)) }
{
    if !has_row(types, index, pc) {
        return Ok(Shape::Ref);
    }
    let shapes = top_shapes(alloc, types, narrow, index, pc, 1)?;
    Ok(top(&shapes))
}

/// The pc of the instruction after the one at a position, if there is one.
#[tactic(auto, using(crate::proofs::Following::after_some, crate::proofs::Following::after_none))]
fn next_pc(ops: &[(u32, Op)], position: usize) -> Option<u32>
    requires ops { RisesFrom 0 ops.now }
    requires position { position < length ops.now }
    ensures { result ≡ pc_after ops.now (pc_at ops.now position) }
{
    let next = position + 1;
    if next < ops.len() {
        Some(ops[next].0)
    } else {
        None
    }
}

/// The shape of the top operand after the instruction at a position, that of a reference where there is none or it is
/// the last one; the index is that of the first row that is not below its pc.
pub(crate) fn top_after(
    alloc: Global,
    ops: &[(u32, Op)],
    types: &Types,
    narrow: &[Entry],
    index: usize,
    position: usize,
) -> Result<Shape, Memory>
    requires ops { RisesFrom 0 ops.now }
    requires rise { RisesFrom 0 types.now }
    requires order { AllPairs (λ first second. comes_before first second ≡ true) narrow.now }
    requires position { position < length ops.now }
    requires index { index ≡ rows_before types.now (pc_at ops.now position) }
    ensures { IfOk result (λ shape. shape ≡ top_of (option_map_or (shapes_where narrow.now (table_of types.now)) (pc_after ops.now (pc_at ops.now position)) [])) }
{
    match next_pc(ops, position) {
        Some(next) => {
            let row = first_from(types, index, next);
            top_before(alloc, types, narrow, row, next)
        }
        None => Ok(Shape::Ref),
    }
}
