//! From the bytes of a method's code (JVMS 4.7.3) to its instructions (JVMS 6.5), exactly. The main
//! call is `decode`. The table of instructions, as a function on bytes, is in specs/Table.antt; what
//! it means that code is a list of instructions, and which failure is the first, in specs/Code.antt.
//! Which instructions are reached is the answer of `reached`, over specs/Flow.antt. This crate stands on
//! `class_file` for the rows of exception tables, on `code_reach`, `cell_num`, `insn_form`, `item_list` and the
//! kit's `byteorder`.
#![tactic(auto)]

mod array;
mod branch;
mod code_list;
mod constant;
mod control;
mod flow;
mod insn;
mod local;
mod math;
mod opcode;
mod operand;
mod reference;
mod refusal;
mod stack;
mod switch;
mod table;
mod wide;

pub use code_list::{CodeList, decode, handlers_fit};
pub use flow::reached;
pub use insn::{ArrayKind, Insn};
pub use insn_form::{ElementKind, RefCond, StackForm, SwitchForm, SwitchRow, ValueKind};
pub use refusal::CodeRefusal;
