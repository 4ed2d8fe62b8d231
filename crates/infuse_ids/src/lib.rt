//! The numbers of what the image of a set names: types, selectors, methods, the places of fields, and what statics hold
//! before main starts. The main call is `number`, which refuses a set that has too many of one kind; what the numbers are
//! is `numbering_of` of `jvm_model`, in specs/ImageNumbering.antt. `selector_number` answers the selector of a call, and
//! that an object has the fields of its superclass's objects first is a law. This crate stands on `jvm_model`,
//! `class_tree`, `class_order`, `class_code`, `body_form`, `body_make` for the set's entry, and the kit's `indexmap`.
#![tactic(auto)]

mod bodies;
mod classes;
mod counts;
mod descriptor;
mod kinds;
mod laws;
mod limits;
mod numbering;
mod places;
mod pushed;
mod refusal;
mod selectors;
mod sizes;
mod statics;
mod texts;
mod types;
mod values;
mod writes;

pub use classes::{class_order, file_of, superinterfaces_of};
pub use descriptor::selector_number;
pub use laws::fields_come_from_superclasses;
pub use numbering::number;
pub use refusal::IdsRefusal;
