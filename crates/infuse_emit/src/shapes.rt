//! The operands around an instruction, and what they are kept in.

ghost use Rattle.std.specs.Prelude.{◌≡◌, ◌≤◌, ◌-◌, ◌++◌, true, [], take, length, get_or, slice_get, option_map, OnOk, IfOk};
ghost use Rattle.std.specs.Option.{option_map_or, option_to_list};
ghost use Rattle.code_reach.specs.Reached.{RisesFrom};
ghost use Rattle.code_reach.specs.Visits.{pcs_of, index_of};
ghost use Rattle.jvm_model.specs.ImageExpansion.{is_boolean_array as is_boolean_array_of};
ghost use Rattle.jvm_model.specs.WidthsShapes.{is_narrow, width_where, shape_of as shape_by, types_at, shapes_at as shapes_of_point, pc_after};
ghost use Rattle.type_table.specs.Types.{Rows, table_of};
ghost use Rattle.expansion.specs.Seen.{IsAround, looked_at as looked_at_of};
ghost use Rattle.infuse_emit.specs.Parts.{source_in, heights_in, AreParts, AreRising, point_in};
ghost use Rattle.infuse_emit.specs.Shapes.{shapes_upon};

use crate::parts::Parts;
use body_form::{Op, VType};
use class_pool::TypeBase;
use expansion::Around;
use flow_split::has_entry;
use image_instr::Kind;
use item_list::Items;
use jvm_model::Entry;
use std::alloc::{AllocError, Global};
use type_table::Types;

/// The pc of the row at an index, and how many operands it has.
fn row_at(types: &Types, index: usize) -> Option<(u32, usize)>
    ensures { result ≡ option_map (λ row. (row.0, length row.1.stack)) (slice_get types.now index) }
{
    let pc = types.pc_at(index)?;
    let height = types.height_at(index)?;
    Some((pc, height))
}

/// Appends a row, where there is one.
fn push_row(row: Option<(u32, usize)>, out: &mut Vec<(u32, usize)>) -> Result<(), AllocError>
    ensures { OnOk result (out.new.items ≡ out.old.items ++ option_to_list row) }
{
    if let Some(row) = row {
        out.push(row)?;
    }
    Ok(())
}

/// The pc of each row of the types, and how many operands it has.
pub(crate) fn heights_of(alloc: Global, types: &Types) -> Result<Vec<(u32, usize)>, AllocError>
    ensures { IfOk result (λ heights. heights.items ≡ heights_in types.now) }
{
    let mut heights = Vec::new(alloc);
    for index in 0..types.len() {
        push_row(row_at(types, index), &mut heights)?;
    }
    Ok(heights)
}

/// The index of the row with a pc, or past the end where there is none.
fn row_of(heights: &[(u32, usize)], pc: u32) -> usize
    requires { RisesFrom 0 heights.now }
    ensures { result ≡ index_of (pcs_of heights.now) pc }
{
    heights
        .binary_search_by_key(&pc, |row| row.0)
        .unwrap_or(heights.len())
}

/// How many operands the row at an index has; none where there is no row.
fn height_in(heights: &[(u32, usize)], index: usize) -> usize
    ensures { result ≡ option_map_or (λ row. row.1) (slice_get heights.now index) 0 }
{
    match heights.get(index) {
        Some(row) => row.1,
        None => 0,
    }
}

/// How many operands stand before the instruction at a pc.
pub(crate) fn height_at(heights: &[(u32, usize)], pc: u32) -> usize
    requires { RisesFrom 0 heights.now }
    ensures { (rows : Rows) → heights.now ≡ heights_in rows → result ≡ length (types_at (table_of rows) pc) }
{
    height_in(heights, row_of(heights, pc))
}

/// The types of the top so many operands before the instruction at a pc.
fn operands_at(
    alloc: Global,
    parts: &Parts<'_>,
    pc: u32,
    count: usize,
) -> Result<Items<VType>, AllocError>
    requires { AreParts parts.now }
    ensures { IfOk result (λ operands. operands ≡ take count (types_at (table_of parts.now.types.now) pc)) }
{
    let index = row_of(parts.heights, pc);
    parts.types.top_operands(alloc, index, count)
}

/// What an operand is kept in, at a place that counts from the bottom.
fn shape_of(narrow: &[Entry], pc: u32, place: usize, operand: VType) -> Kind
    requires { AreRising narrow.now }
    ensures { result ≡ shape_by (width_where (is_narrow narrow.now pc true place)) operand }
{
    match operand {
        VType::Int => {
            if has_entry(narrow, pc, true, place) {
                Kind::One
            } else {
                Kind::Two
            }
        }
        _ => Kind::Ref,
    }
}

/// What operands at the top of so many are kept in, the top first.
fn shapes_of(
    alloc: Global,
    narrow: &[Entry],
    pc: u32,
    height: usize,
    operands: &[VType],
) -> Result<Vec<Kind>, AllocError>
    requires order { AreRising narrow.now }
    requires within { length operands.now ≤ height }
    ensures { IfOk result (λ shapes. shapes.items ≡ shapes_upon (λ place. width_where (is_narrow narrow.now pc true place)) (height - length operands.now) operands.now) }
{
    let mut shapes = Vec::new(alloc);
    let mut place = height;
    for operand in operands {
        place -= 1;
        shapes.push(shape_of(narrow, pc, place, *operand))?;
    }
    Ok(shapes)
}

/// What the top so many operands before the instruction at a pc are kept in.
fn shapes_at(
    alloc: Global,
    parts: &Parts<'_>,
    pc: u32,
    count: usize,
) -> Result<Items<Kind>, AllocError>
    requires { AreParts parts.now }
    ensures { IfOk result (λ shapes. let source = source_in parts.now in shapes ≡ take count (shapes_of_point source.widths source.table pc)) }
{
    let operands = operands_at(alloc, parts, pc, count)?;
    let height = height_at(parts.heights, pc);
    let narrow = parts.plan.narrow.as_slice();
    let shapes = shapes_of(alloc, narrow, pc, height, operands.as_slice())?;
    Ok(Items::from_vec(shapes))
}

/// What the top operand before the instruction at a pc is kept in; a reference where there is none.
fn top_at(alloc: Global, parts: &Parts<'_>, pc: u32) -> Result<Kind, AllocError>
    requires { AreParts parts.now }
    ensures { IfOk result (λ shape. let source = source_in parts.now in shape ≡ get_or (shapes_of_point source.widths source.table pc) 0 Kind.Ref) }
{
    let shapes = shapes_at(alloc, parts, pc, 1)?;
    match shapes.as_slice().first() {
        Some(shape) => Ok(*shape),
        None => Ok(Kind::Ref),
    }
}

/// Whether what is known of an operand is an array of booleans.
fn is_boolean_array(operand: VType) -> bool
    ensures { result ≡ is_boolean_array_of operand }
{
    match operand {
        VType::Ref(of) => matches!(of.base, TypeBase::Boolean),
        _ => false,
    }
}

/// Whether the operand below the top is an array of booleans.
fn is_boolean_below(alloc: Global, parts: &Parts<'_>, pc: u32) -> Result<bool, AllocError>
    requires { AreParts parts.now }
    ensures { IfOk result (λ is. is ≡ is_boolean_array_of (get_or (types_at (table_of parts.now.types.now) pc) 1 VType.Top)) }
{
    let operands = operands_at(alloc, parts, pc, 2)?;
    match operands.as_slice().get(1) {
        Some(operand) => Ok(is_boolean_array(*operand)),
        None => Ok(false),
    }
}

/// How many operands an instruction looks at.
fn looked_at(op: &Op) -> usize
    ensures { result ≡ looked_at_of op.now }
{
    match op {
        Op::Stack(_) => 4,
        Op::CallVirtual(used)
        | Op::CallSpecial(used)
        | Op::CallStatic(used)
        | Op::CallInterface(used) => used.descriptor.params.len(),
        _ => 2,
    }
}

/// What the top is kept in after an instruction, where this is the pc of the next one.
fn after(alloc: Global, parts: &Parts<'_>, next: Option<u32>) -> Result<Kind, AllocError>
    requires { AreParts parts.now }
    ensures { IfOk result (λ shape. let source = source_in parts.now in shape ≡ get_or (option_map_or (shapes_of_point source.widths source.table) next []) 0 Kind.Ref) }
{
    match next {
        Some(next) => top_at(alloc, parts, next),
        None => Ok(Kind::Ref),
    }
}

/// What is around the instruction at a pc, where this is the pc of the next one.
pub(crate) fn around(
    alloc: Global,
    parts: &Parts<'_>,
    pc: u32,
    next: Option<u32>,
    op: &Op,
) -> Result<Around, AllocError>
    requires parts { AreParts parts.now }
    requires next { let body = parts.now.body.now in next ≡ pc_after body.ops pc }
    ensures { IfOk result (λ around. IsAround (point_in parts.now pc) around op.now) }
{
    let before = shapes_at(alloc, parts, pc, looked_at(op))?;
    let after = after(alloc, parts, next)?;
    let boolean = match op {
        Op::ArrayLoad(_) => is_boolean_below(alloc, parts, pc)?,
        _ => false,
    };
    Ok(Around {
        before,
        after,
        boolean,
    })
}
