//! A table of the types of a method's frames, in memory by the number of instructions and not by the number of
//! entries that their frames have: operands are chains that share what is below them, and locals are trees that share
//! their branches. The main calls are those of `Store`; a whole table is a `Types`. What an entry stands for is in
//! specs/Frames.antt. This crate stands on `jvm_model`, `flow_kinds`, `class_tree`, `code_reach`, `body_form` and
//! `item_list`.
#![tactic(auto)]

mod change;
mod laws;
mod merged;
mod merged_locals;
mod merged_operands;
mod objects;
mod operands;
mod shapes;
mod store;
mod trees;
mod types;

pub use change::{Change, Pushes};
pub use laws::frames_stay;
pub use merged::Merged;
pub use store::{Branch, Cell, FrameId, Memory, Store};
pub use types::Types;
