use crate::entries::Narrow;
use item_list::Items;

/// A parameter of a small type whose local has two cells: its one cell is extended at entry, by zero for a char and by
/// sign otherwise. Cells count among the cells of the locals.
#[derive(Clone, Copy, Debug, PartialEq, Eq)]
pub struct Fill {
    pub from: u16,
    pub to: u16,
    pub zero: bool,
}

/// How the frame of a method is laid out. Contracts see its lists.
#[derive(Debug, Drop)]
pub struct Plan {
    /// The whole numbers of one cell.
    pub narrow: Narrow,
    /// The slot among the references of each local that has one, by the local's index.
    pub refs: Items<Option<u16>>,
    /// The first cell of each local that has cells, by the local's index.
    pub cells: Items<Option<u16>>,
    /// What is extended at entry, in order of the locals.
    pub fills: Items<Fill>,
    /// How many locals are references, the parameters counted.
    pub ref_locals: u16,
    /// How many cells the other locals take, the parameters counted.
    pub cell_locals: u16,
    /// How many cells the frame's body has: its locals, and the most operands.
    pub body: u16,
}
