//! Rows of types by pc.

ghost use Rattle.std.specs.Prelude.{◌≡◌, ◌≤◌, nat_lt, false, None, slice_get, MatchBool};
ghost use Rattle.std.specs.Option.{option_map_or};
ghost use Rattle.code_reach.specs.Reached.{RisesFrom};
ghost use Rattle.type_table.specs.Types.{table_of};
ghost use Rattle.flow_split.specs.Walks.{rows_before, IsRow};

use type_table::Types;

/// The pc of the row at an index is below this one.
fn is_below(types: &Types, index: usize, pc: u32) -> bool
    ensures { result ≡ option_map_or (λ row. nat_lt row.0 pc) (slice_get types.now index) false }
{
    match types.pc_at(index) {
        Some(at) => at < pc,
        None => false,
    }
}

/// The index of the first row with this pc or a higher one, from one that is not past it.
pub(crate) fn first_from(types: &Types, from: usize, pc: u32) -> usize
    requires rise { RisesFrom 0 types.now }
    requires from { from ≤ rows_before types.now pc }
    ensures { result ≡ rows_before types.now pc }
{
    let end = types.len();
    for index in from..end {
        if !is_below(types, index, pc) {
            return index;
        }
    }
    end
}

/// The row at an index, the first that is not below a pc, is that of the pc.
#[tactic(auto, using(crate::proofs::RowsByPc::row_at))]
pub(crate) fn has_row(types: &Types, index: usize, pc: u32) -> bool
    requires rise { RisesFrom 0 types.now }
    requires index { index ≡ rows_before types.now pc }
    ensures { MatchBool result (IsRow types.now index pc) (table_of types.now pc ≡ None) }
{
    match types.pc_at(index) {
        Some(at) => at == pc,
        None => false,
    }
}
