//! What is known of a value that comes from two places, and which values fit a declared type, in a closed set of
//! classes. The definitions stand with those of sets in `class_tree`. The main calls are `merge` and `fits`. This
//! crate stands on `class_tree`, `body_form`, `class_file` and `class_pool`.
#![tactic(auto)]

mod classes;
mod fit;
mod merging;
mod refs;

pub use fit::fits;
pub use merging::merge;
pub use refs::{is_reference, is_same_primitive};
