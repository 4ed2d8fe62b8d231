//! The machine instructions of one instruction of a body. The main call is `expand`; what they are is `expanded` of
//! `jvm_model`, in specs/ImageExpansion.antt. What an instruction names has numbers before (`Numbers`), and of what
//! is around it no more is looked at than its family asks for (`Around`). The rows of a switch stay with the
//! instruction. This crate stands on `jvm_model`, `body_form`, `image_instr` and `cell_num`.
#![tactic(auto)]

mod around;
mod arrays;
mod calls;
mod constants;
mod expanding;
mod kinds;
mod laws;
mod locals;
mod parts;
mod push;
mod shapes;
mod stack;
#[cfg(test)]
mod tests;
mod values;

pub use around::{Around, Numbers};
pub use expanding::expand;
pub use kinds::{is_small, kind_in, passed_cells};
pub use laws::expansion_hangs_on_what_it_names;
