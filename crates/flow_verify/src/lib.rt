//! Which types the values of a method have before each of its instructions (JVMS 4.10.2): the least right table, or
//! the pc at which the inference fails. The main call is `verify`. What is right is in `jvm_model`, in
//! specs/TypesRight.antt and specs/TypesRounds.antt. This crate stands on `type_table`, `flow_kinds`, `type_rounds`,
//! `jvm_model`, `class_tree` and `body_form`.
#![tactic(auto)]

mod after;
mod arrays;
mod arriving;
mod calls;
mod constructors;
mod fields;
mod frames;
mod kinds;
mod locals;
mod lowest;
mod need;
mod operands;
mod returns;
mod rounds;
mod rows;
mod rules;
mod sending;
mod start;
mod values;
mod verifying;

pub use verifying::{VerifyRefusal, verify};
