//! The phases of the verdict on a set of class files, up to that of types: each is a function, of sets of files of bytes.
//! That methods with code stand in classes of the set, and that the phase of types has one answer, are lemmas. This crate
//! has no code of its own. It stands on `jvm_model` and `type_rounds`.
#![tactic(auto)]

mod laws;

pub use laws::early_phases_are_functions;
