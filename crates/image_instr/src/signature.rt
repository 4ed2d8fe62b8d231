//! What a call takes and gives, and how an instruction moves operands.

/// The signature of a method or a selector: so many references, the receiver among them, and so many
/// cells as arguments. The result is 0 for none, 1 for a reference, 2 for one cell, 3 for two.
#[derive(Clone, Copy, Debug, PartialEq, Eq)]
pub struct Sig {
    pub refs: u8,
    pub cells: u16,
    pub result: u8,
}

/// How many references and cells an instruction pops, and then pushes.
#[derive(Clone, Copy, Debug, PartialEq, Eq)]
pub struct Effect {
    pub ref_pop: u32,
    pub ref_push: u32,
    pub cell_pop: u32,
    pub cell_push: u32,
}
