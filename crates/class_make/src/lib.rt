//! From the record of a class file (JVMS chapter 4) to its bytes, and records that are drafted call by
//! call. The main calls are `write_class`, whose bytes are read again as the same record, and
//! `ClassDraft`. How a record is laid out is in specs/Written.antt, and what each call makes of a draft
//! in specs/Draft.antt. This crate stands on `class_file`, `class_pool` and `item_list`, and on the
//! kit's `indexmap`.
#![tactic(auto)]

mod bytes;
mod constants;
mod draft;
mod entries;
mod fits;
mod refusal;
mod same;
mod valid;
mod write;

pub use draft::ClassDraft;
pub use refusal::DraftRefusal;
pub use write::{Memory, write_class};
