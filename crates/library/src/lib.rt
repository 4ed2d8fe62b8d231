//! The facts of the base library, whose classes need no class file: which numbers are its own, what its
//! classes are called and which stand below which, and its natives. Definitions and code cite them from
//! here. The main call is `class_name`. This crate stands on `std` alone.
#![tactic(auto)]

mod classes;
mod natives;
#[cfg(test)]
mod tests;

pub use classes::{CLASS_COUNT, FIRST_OWN, class_name, class_of_name, superclass_of};
pub use natives::{Native, methods_of};
