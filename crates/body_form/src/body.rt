use crate::op_list::OpList;
use class_pool::Kind;
use item_list::Items;

/// A row of an exception table: `start` to `end`, without `end`, in pcs, the pc of the handler, and the class
/// that it catches, or none for any.
#[derive(Clone, Copy, Debug, PartialEq, Eq)]
pub struct Guard {
    pub start: u32,
    pub end: u32,
    pub target: u32,
    pub class: Option<u16>,
}

/// The body of a method: the method by its class and its position there, its parameters without `this`, its
/// result, whether it has `this`, and its instructions in order of pc, each as its family.
#[derive(Debug, Drop)]
pub struct Body {
    pub class: u16,
    pub method: u16,
    pub params: Items<Kind>,
    pub result: Option<Kind>,
    pub instance: bool,
    pub max_stack: u16,
    pub max_locals: u16,
    pub ops: OpList,
    pub handlers: Items<Guard>,
}
