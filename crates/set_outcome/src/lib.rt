//! Outcomes of runs: what the limited run of an image leaves, what those of an accepted set leave, and that the limited run
//! of the image of a set is that of the set (`accepted_sets_run`). The definitions are in specs/. This crate has no code of
//! its own. It stands on `set_runs` and `set_verdict`.
#![tactic(auto)]

mod laws;

pub use laws::{accepted_sets_run, limits_cut, one_outcome};
