//! The verdict on a set of class files, and its image. What is said stands in specs/: the phases behind that of types
//! (Phases), and the verdict over all phases (Verdict). That each set has one verdict, and an accepted one one image, are laws.
//! This crate has no code of its own. It stands on `set_image`, `set_laws`, `type_rounds` and `jvm_model`.
#![tactic(auto)]

mod laws;

pub use laws::{one_linked, one_verdict};
