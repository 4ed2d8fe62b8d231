//! A closed set of class files: its classes by number and name, which of them are above which, and
//! whether every class that a superclass, a superinterface or a declared descriptor names is there. The main
//! call is `gather`. What the merge of two types is, and which values fit a type, is in specs/Merge.antt and
//! specs/Fits.antt. This crate stands on `body_form`, `class_file`, `class_pool`, `library`, `item_list` and
//! the kit's `indexmap`.
#![tactic(auto)]

mod above;
mod circles;
mod closure;
mod descriptors;
mod laws;
mod lookup_ways;
mod member_index;
mod members;
mod merges;
mod names;
mod rank;
mod refusal;
mod route;
mod set;
mod subtype;
mod supers;
mod way;
mod ways;

pub use laws::{found_are_members, lookups_are_ruled, one_answer, tests_are_relations};
pub use merges::merges_are_joins;
pub use refusal::TreeRefusal;
pub use set::{ClassSet, gather};
pub use subtype::is_subtype;
