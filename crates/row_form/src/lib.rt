//! The text of tests that are data: lines of a word and what follows it, blocks of lines, one block a
//! row, and bytes as a reader of tests writes them. A sheet asks questions about bytes. Programs of rows stand on this crate. It stands on
//! `hex` and `std`.
#![tactic(auto)]

mod bytes;
mod fault;
mod names;
mod sheet;
mod tally;
mod words;

pub use bytes::bytes_of;
pub use fault::RowFault;
pub use names::Names;
pub use sheet::{Reader, Sheet};
pub use tally::Tally;
pub use words::{key_of, words_of};
