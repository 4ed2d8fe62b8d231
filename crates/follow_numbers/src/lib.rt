//! The split machine follows the typed one where the instruction is of whole numbers or a jump, in bodies whose whole
//! numbers each have two cells; and where the image says which class is below which as the set does, rows catch alike. The
//! lemmas are in proofs/. This crate stands on `match_code` and `match_views`, and on what they stand on.
#![tactic(auto)]
