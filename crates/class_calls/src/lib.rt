//! Calls of the decoder, of the writer of class files and of the verifier of types by their public names, with ample
//! memory. What is data stands in `class_rows`. This crate has tests alone, and stands on the crates that it calls.
#![tactic(auto)]

#[cfg(test)]
mod bodies;
#[cfg(test)]
mod code;
#[cfg(test)]
mod drafts;
#[cfg(test)]
mod finds;
#[cfg(test)]
mod laws;
#[cfg(test)]
mod linking;
#[cfg(test)]
mod sets;
#[cfg(test)]
mod types;
