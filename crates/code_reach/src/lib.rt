//! Which instructions of a method's code are reached from pc 0: by going on, by targets, and by the handlers
//! of the rows of an exception table that cover a reached pc. The one call is `reached`, over any type of
//! instruction that tells by `Flow` where it leads; what it means is in specs/Reached.antt. Each row is put
//! into a tree over the pcs, at no more nodes than twice the bits of its end, and taken from there once, so
//! that it is not looked at for each pc. This crate stands on `std` alone.
#![tactic(auto)]

mod flow;
mod index;
mod row;
mod search;
mod tree;
mod visits;
mod waiting;

pub use flow::Flow;
pub use row::Row;
pub use search::reached;
