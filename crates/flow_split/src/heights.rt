//! How many operands stand before each instruction.

ghost use Rattle.std.specs.Prelude.{◌≡◌, map, IfOk};
ghost use Rattle.code_reach.specs.Reached.{RisesFrom};
ghost use Rattle.jvm_model.specs.WidthsShapes.{height_at};
ghost use Rattle.type_table.specs.Types.{table_of};
ghost use Rattle.flow_split.specs.Walks.{rows_before};

use crate::rows::{first_from, has_row};
use body_form::Op;
use std::alloc::{AllocError, Global};
use type_table::Types;

/// How many operands stand before the instruction at a pc; the index is that of the first row that is not below the
/// pc.
fn height_before(types: &Types, index: usize, pc: u32) -> usize
    requires rise { RisesFrom 0 types.now }
    requires index { index ≡ rows_before types.now pc }
    ensures { result ≡ height_at (table_of types.now) pc }
{
    if has_row(types, index, pc) {
        types.height_at(index).unwrap_or(0)
    } else {
        0
    }
}

/// How many operands stand before each instruction; in time by the instructions and the rows.
pub(crate) fn heights(
    alloc: Global,
    ops: &[(u32, Op)],
    types: &Types,
) -> Result<Vec<usize>, AllocError>
    requires ops { RisesFrom 0 ops.now }
    requires rise { RisesFrom 0 types.now }
    ensures { IfOk result (λ heights. heights.items ≡ map (λ x. height_at (table_of types.now) x.0) ops.now) }
{
    let mut heights = Vec::new(alloc);
    let mut row = 0;
    for x in ops {
        row = first_from(types, row, x.0);
        match heights.push(height_before(types, row, x.0)) {
            Ok(()) => {}
            Err(why) => return Err(why.into()),
        }
    }
    Ok(heights)
}
