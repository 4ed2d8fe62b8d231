//! The tables of the image of a set: the entries of its types and the signatures of its selectors, by their numbers. What
//! they are stands in `jvm_model`, in specs/ImageTables.antt; the calls are `type_entries` and `selector_signatures`. This
//! crate stands on `jvm_model`, `class_find`, `infuse_ids`, `infuse_emit` and `image_form`.
#![tactic(auto)]

mod classes;
mod entries;
mod selectors;

pub use entries::type_entries;
pub use selectors::selector_signatures;
