//! The states in which the run of a set and that of its image start match, and both runs begin alike: with main's frame,
//! which takes as many cells in both, without objects, and with statics that hold the same. What is said of it is in
//! specs/Started, and the lemmas are in proofs/. This crate stands on `match_code` and `match_states`, and on what they
//! stand on.
#![tactic(auto)]
