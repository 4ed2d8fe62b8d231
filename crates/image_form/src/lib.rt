//! The infusion format, version 1: an image as a record, and the bytes of an infusion. The main calls are
//! `write_image` and `read_image`. Which images there are is in specs/Grammar.antt, their bytes in
//! specs/Format.antt, and why other bytes are refused in specs/Reading.antt, rule by rule in their order.
//! This crate stands on `image_instr` for signatures and for the bytes of numbers, on `item_list` and on
//! the kit's `byteorder`.
#![tactic(auto)]

mod dispatch;
mod ids;
mod laws;
mod methods;
mod part;
mod read;
mod record;
mod refusal;
mod statics;
mod types;
mod write;

pub use ids::{names_interface, names_type, signature_in};
pub use laws::{encoding_is_injective, faults_say, prefixes_decide};
pub use read::read_image;
pub use record::{ClassEntry, DispatchRow, HandlerEntry, Image, Method, TypeEntry};
pub use refusal::FormRefusal;
pub use write::{Memory, write_image};
