use body_form::Body;
use image_instr::Width;
use jvm_model::{Ids, Plan};
use type_table::Types;

/// What the code of a method is made of.
#[derive(Clone, Copy)]
pub(crate) struct Parts<'a> {
    pub(crate) body: &'a Body,
    pub(crate) types: &'a Types,
    pub(crate) plan: &'a Plan,
    pub(crate) ids: &'a Ids,
    /// The pc of each row of the types, and how many operands it has.
    pub(crate) heights: &'a [(u32, usize)],
    /// The width of each local by its index; another one has two cells.
    pub(crate) widths: &'a [Width],
}
