//! What the account sees of a state of the typed machine is what it sees of a state of the split machine that matches it:
//! the references of frames and statics, the objects that they lead to with their cells, and the cells of all frames. And
//! states still match where frames or objects of both change alike. The lemmas are in proofs/. This crate stands on
//! `match_states`, and on what that stands on.
#![tactic(auto)]
