//! How the frame of a method is laid out: the slots of its references, the cells of its whole numbers, and how many
//! cells its operands take at most. The main call is `split`. What a plan is stands in `jvm_model`, in
//! specs/WidthsFrame.antt, and what is asked and refused in specs/Splits.antt. This crate stands on `expansion`,
//! `type_table`, `jvm_model`, `image_instr`, `body_form`, `insn_form` and `class_pool`.
#![tactic(auto)]

mod calls;
mod cells;
mod entries;
mod families;
mod fill_cells;
mod fills;
mod frame;
mod heights;
mod instructions;
mod kinds;
mod laws;
mod marks;
mod most;
mod moves;
mod named;
mod parameters;
mod peaks;
mod points;
mod refusal;
mod restacking;
mod rows;
mod shares;
mod slots;
mod totals;
mod walk;
mod widths;

pub use entries::has_entry;
pub use frame::split;
pub use laws::right_types_name_locals;
pub use moves::{Move, moves_are_enough};
pub use refusal::SplitRefusal;
