//! Bodies: a method's code as families of instructions whose members are resolved, what is known of
//! values before them, and where control goes. The main calls are `successors`, `handlers_at` and `reachable`; what they
//! mean is in specs/Flow.antt and specs/Reach.antt. This crate stands on `class_pool`, `cell_num`, `code_reach`,
//! `insn_form` and `item_list`.
#![tactic(auto)]

mod body;
mod flow;
mod op;
mod op_list;
mod reach;
mod types;

pub use body::{Body, Guard};
pub use flow::{Memory, handlers_at, successors};
pub use op::{FieldUse, Literal, MethodUse, Op, UnaryOp};
pub use op_list::OpList;
pub use reach::reachable;
pub use types::{VFrame, VType};
