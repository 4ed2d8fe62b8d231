//! The table of the types of a method.

ghost use Rattle.std.specs.Prelude.{◌≡◌, ◌==◌, [], length, map, take, option_map, slice_get, IfOk};
ghost use Rattle.std.specs.Option.{option_map_or};
ghost use Rattle.std.specs.List.{AllByRecursion};
ghost use Rattle.code_reach.specs.Reached.{RisesFrom};
ghost use Rattle.code_reach.specs.Visits.{pcs_of, index_of as index_of_pc};
ghost use Rattle.type_table.specs.Counts.{ints_in};
ghost use Rattle.type_table.specs.Frames.{IsFrame};
ghost use Rattle.type_table.specs.Types.{rows_of, table_of};

use crate::shapes::int_counts;
use crate::store::{FrameId, Memory, Store};
use body_form::{VFrame, VType};
use item_list::Items;
use std::alloc::Global;
use std::marker::Model;

/// The index of the row with a pc, or past the end where there is none.
fn index_of(rows: &[(u32, FrameId)], pc: u32) -> usize
    requires { RisesFrom 0 rows.now }
    ensures { result ≡ index_of_pc (pcs_of rows.now) pc }
{
    rows.binary_search_by_key(&pc, |row| row.0)
        .unwrap_or(rows.len())
}

/// The row at an index.
fn row_at(rows: &[(u32, FrameId)], index: usize) -> Option<(u32, FrameId)>
    ensures { result ≡ slice_get rows.now index }
{
    rows.get(index).copied()
}

/// The types before the instructions of a method: rows in order of pc, each with the pc of an instruction and the frame
/// before it. Contracts see the list of the pcs and frames.
#[derive(Debug, Drop)]
pub struct Types {
    store: Store,
    rows: Vec<(u32, FrameId)>,
}

impl Model for Types {
    ghost use Rattle.std.specs.List.{AllByRecursion};
    ghost use Rattle.type_table.specs.Frames.{IsFrame};
    ghost use Rattle.type_table.specs.Types.{Rows, rows_of};

    ghost Value = { Rows };

    ghost view = { λ types. rows_of types.store types.rows.items };

    ghost invariant = { λ types. AllByRecursion (λ row. IsFrame types.store row.1) types.rows.items };
}

impl Types {
    /// These rows of frames of a store.
    pub fn of(store: Store, rows: Vec<(u32, FrameId)>) -> Types
        requires { AllByRecursion (λ row. IsFrame store row.1) rows.items }
        ensures { result ≡ rows_of store rows.items }
    {
        Types { store, rows }
    }

    /// How many rows there are.
    pub fn len(&self) -> usize
        ensures { result ≡ length self.now }
    {
        self.rows.len()
    }

    /// Whether there are no rows.
    pub fn is_empty(&self) -> bool
        ensures { result ≡ (length self.now == 0) }
    {
        self.rows.is_empty()
    }

    /// The pc of the row at an index.
    pub fn pc_at(&self, index: usize) -> Option<u32>
        ensures { result ≡ option_map (λ row. row.0) (slice_get self.now index) }
    {
        match row_at(self.rows.as_slice(), index) {
            Some((pc, _)) => Some(pc),
            None => None,
        }
    }

    /// How many operands the row at an index has.
    pub fn height_at(&self, index: usize) -> Option<usize>
        ensures { result ≡ option_map (λ row. length row.1.stack) (slice_get self.now index) }
    {
        match row_at(self.rows.as_slice(), index) {
            Some((_, id)) => Some(id.height as usize),
            None => None,
        }
    }

    /// The top so many operands of the row at an index, the top first: all where it has fewer, and none where there is
    /// no row.
    pub fn top_operands(
        &self,
        alloc: Global,
        index: usize,
        count: usize,
    ) -> Result<Items<VType>, Memory>
        ensures { IfOk result (λ values. values ≡ option_map_or (λ row. take count row.1.stack) (slice_get self.now index) []) }
    {
        match row_at(self.rows.as_slice(), index) {
            Some((_, id)) => {
                let values = self.store.top_operands(alloc, id, count)?;
                Ok(Items::from_vec(values))
            }
            None => Ok(Items::empty(alloc)),
        }
    }

    /// How many of the operands of each row are whole numbers; in time by the entries of the store and the rows.
    pub fn operand_counts(&self, alloc: Global) -> Result<Items<u32>, Memory>
        ensures { IfOk result (λ counts. counts ≡ map (λ row. ints_in row.1.stack) self.now) }
    {
        let counts = int_counts(alloc, self.store.cells(), self.rows.as_slice())?;
        Ok(Items::from_vec(counts))
    }

    /// The frame of the row at an index.
    pub fn frame_at(&self, alloc: Global, index: usize) -> Result<Option<VFrame>, Memory>
        ensures { IfOk result (λ found. found ≡ option_map (λ row. row.1) (slice_get self.now index)) }
    {
        match row_at(self.rows.as_slice(), index) {
            Some((_, id)) => {
                let frame = self.store.frame(alloc, id)?;
                Ok(Some(frame))
            }
            None => Ok(None),
        }
    }

    /// The frame of the row with a pc; the pcs of the rows rise.
    pub fn frame(&self, alloc: Global, pc: u32) -> Result<Option<VFrame>, Memory>
        requires { RisesFrom 0 self.now }
        ensures { IfOk result (λ found. found ≡ table_of self.now pc) }
    {
        let index = index_of(self.rows.as_slice(), pc);
        self.frame_at(alloc, index)
    }
}
