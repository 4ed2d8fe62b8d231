use image_instr::{Kind, Width};
use item_list::Items;

/// What is around an instruction, as far as its family looks at it.
#[derive(Debug, Drop)]
pub struct Around {
    /// What the operands at the top are kept in before the instruction, the top first: four of them or as many as there
    /// are, and before a call its arguments.
    pub before: Items<Kind>,
    /// What the top is kept in after it.
    pub after: Kind,
    /// Whether the operand below the top is an array of booleans.
    pub boolean: bool,
}

/// The numbers of what an instruction names. One that its family does not ask for may be any.
#[derive(Clone, Copy, Debug, PartialEq, Eq)]
pub struct Numbers {
    /// The slot of the local among the references, where it has one.
    pub slot: Option<u16>,
    /// The first cell of the local.
    pub cell: u16,
    /// The width of the local.
    pub width: Width,
    /// The place of the field or static.
    pub place: u16,
    /// The id of the type, or of the interface that a call names.
    pub type_id: u16,
    /// The id of the method.
    pub method: u16,
    /// The number of the selector.
    pub selector: u16,
    /// The offset of the target, of a switch the default one.
    pub target: u16,
}
