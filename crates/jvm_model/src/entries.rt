use item_list::Items;

/// A whole number before an instruction that is reached: the local of an index, or the operand at a place that counts
/// from the bottom of the stack. Entries are ordered by pc, then locals before operands, then place.
#[derive(Clone, Copy, Debug, PartialEq, Eq)]
pub struct Entry {
    pub pc: u32,
    pub operand: bool,
    pub place: u16,
}

/// The entries that have one cell, in order, each once; each other whole number has two cells.
pub type Narrow = Items<Entry>;
