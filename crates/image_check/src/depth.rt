/// How many references and how many cells are on the operands.
#[derive(Clone, Copy, Debug, PartialEq, Eq)]
pub(crate) struct Depth {
    pub refs: u32,
    pub cells: u32,
}

/// The depths that reached the offsets of a code, by the offset, and those of which the instruction
/// is not yet visited.
#[derive(Drop)]
pub(crate) struct Flow {
    pub depths: Vec<Option<Depth>>,
    pub work: Vec<u16>,
}
