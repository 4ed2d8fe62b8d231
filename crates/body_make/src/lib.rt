//! The bodies of the methods of a set of classes, with what their instructions name, and why the classes do
//! not stand together: what a class declares beside the methods above it, what its instructions and exception
//! tables name, and the entry. This crate stands on `class_find`, `class_tree`, `class_code`, `body_form` and
//! `jvm_model`.
#![tactic(auto)]

mod calls;
mod code;
mod constants;
mod declares;
mod entry;
mod fault;
mod fields;
mod handlers;
mod initialisers;
mod instructions;
mod kinds;
mod method;
mod methods;
mod overrides;
mod places;
mod refusal;
mod set_bodies;
mod type_test;
mod types;
mod uppers;

pub use entry::entry as main_method;
pub use refusal::{LinkCause, LinkRefusal};
pub use set_bodies::bodies;
