//! Laws on frames of types and on typing rules: merges of frames are joins, rules are monotone, and what they lead to
//! is of the types of the set. The statements are in specs/OrderLaws.antt. This crate has no code of its own. It
//! stands on `jvm_model` and `class_tree`.
#![tactic(auto)]

mod laws;

pub use laws::{frames_merge, rules_are_monotone};
