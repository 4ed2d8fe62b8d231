//! The bytes and the effects of machine instructions. The main calls are `encode` and `decode_at`;
//! `decode_known` decodes again what was found before, `switch_target` reads the rows of a switch in
//! the code, and `effect` counts operands. What stands between an instruction and its bytes is in
//! specs/Insn.antt. This crate stands on the kit's `byteorder`.
#![tactic(auto)]

mod code;
mod group;
mod insn;
mod known;
mod moves;
mod opcode;
mod operand;
mod plain;
mod read;
mod shape;
mod signature;
mod switch;
mod write;

pub use insn::{Condition, Element, Kind, MInsn, Operation, RefTest, SwitchRow, Width};
pub use moves::effect;
pub use read::{decode_at, decode_known};
pub use shape::Shape;
pub use signature::{Effect, Sig};
pub use switch::switch_target;
pub use write::{Memory, encode};
