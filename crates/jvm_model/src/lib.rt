//! The verdict on class files, and the image of a set of them: what they are, said without halves, widths or offsets
//! where that can be. The definitions are in specs/: the values of the typed machine (State), which `typed_machine` is
//! over, and what a stack instruction makes of operands (Operands). A verdict is a list of phases (Verdict), each in a
//! file of its own up to that of types (Phases has the first three, then ClosedSet, Linking, Entry and Verification). The
//! bodies of a set are in Bodies, its statics before main in InitialStatics, and how a body becomes the code of an image
//! in ImageExpansion, ImageNumbering, ImageEmission and ImageTables. The types here are those of a refusal and of the
//! numbers of an image, in lists with look-ups, and the functions carry laws. This crate stands on `class_tree`,
//! `class_code`, `class_file` and `image_form`.
#![tactic(auto)]

mod entries;
mod id_lists;
mod ids;
mod laws;
mod numbers;
mod place_list;
mod plan;
mod refusal;
mod selector_list;

pub use entries::{Entry, Narrow};
pub use id_lists::{MemberList, TypeList};
pub use ids::Ids;
pub use laws::{one_linking, statics_are_set};
pub use numbers::{FieldPlace, Layout, Selector};
pub use place_list::PlaceList;
pub use plan::{Fill, Plan};
pub use refusal::{Cause, Refusal};
pub use selector_list::SelectorList;
