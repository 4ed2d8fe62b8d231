//! Which field or method a name and a descriptor are of in a closed set of classes, which members a class may
//! use, and which method a call selects (JVMS 5.4.3.2 to 5.4.3.4, 5.4.4 and 5.4.6). The definitions stand
//! with those of sets in `class_tree`. The main call is `find_method`. This crate stands on `class_tree`,
//! `class_file` and `class_pool`.
#![tactic(auto)]

mod access;
mod along;
mod find;
mod overriding;
mod package;

pub use access::{allowed, may_use_class};
pub use find::{find_field, find_interface_method, find_method, select};
pub use overriding::{is_bad_override, overridden};
