//! Laws on the rounds by which types are inferred: they end, with the least right table or at the failing pc. The
//! statements are in specs/RoundLaws.antt. This crate has no code of its own. It stands on `type_order`, `class_tree`
//! and `jvm_model`.
#![tactic(auto)]

mod laws;

pub use laws::rounds_find_the_least;
