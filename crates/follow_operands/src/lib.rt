//! The split machine follows the typed one where the instruction moves operands and locals, in bodies whose whole numbers
//! each have two cells. The lemmas are in proofs/. This crate stands on `follow_numbers`, and on what that stands on.
#![tactic(auto)]
