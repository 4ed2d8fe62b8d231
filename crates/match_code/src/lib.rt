//! Where the code of the split machine stands: the sizes and offsets of the expansions of a body's instructions, the move
//! at each machine instruction of an expansion, and which of them are quiet. What it is to stand at one is in
//! specs/Standing, and proofs/ has the lemmas, for the proof that the split machine follows the typed one. This crate
//! stands on `match_states`, `expansion`, `mote_model`, `jvm_model`, `account` and `image_instr`.
#![tactic(auto)]
