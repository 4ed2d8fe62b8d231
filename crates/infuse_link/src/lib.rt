//! The infuser: `infuse` turns a set of class files into the image of the set, or says why the set is refused. The files
//! are read, their methods' code is tested, their classes are linked to a closed set with an entry, and each body gets its
//! types; then the image of the typed bodies is made. What is answered is the verdict on the set (`set_verdict`). This
//! crate stands on `class_file`, `class_code`, `class_tree`, `body_make`, `flow_verify` and `infuse_sets`.
#![tactic(auto)]

mod infusing;
mod linking;
mod sets;
mod verifying;

pub use infusing::infuse;
