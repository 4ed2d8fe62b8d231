//! The split machine follows the typed one at calls, returns and statics, in bodies whose whole numbers each have two
//! cells. The lemmas are in proofs/. This crate stands on `follow_operands`, and on what that stands on.
#![tactic(auto)]
