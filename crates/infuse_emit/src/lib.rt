//! The code of methods. What it is stands in `jvm_model`, in specs/ImageEmission.antt. The bytes of one instruction are
//! appended by `emit_instruction`, over `expansion` and `image_instr`. This crate stands on these, `jvm_model`,
//! `infuse_ids`, `flow_split`, `type_table`, `image_form` and `body_form`.
#![tactic(auto)]

mod code;
mod emitting;
mod fills;
mod handlers;
mod instruction;
mod numbers;
mod offsets;
mod parts;
mod refusal;
mod shapes;
mod signatures;
mod widths;

pub use emitting::emit;
pub use instruction::emit_instruction;
pub use refusal::EmitRefusal;
pub use signatures::signature;
