//! Which states of the split machine match a state of the typed machine, and that the split machine follows the typed
//! one: the statement of it, over a set and its image. The definitions are in specs/: what belongs to a set and its image
//! (Setting), which frames and objects match (MatchedFrames, MatchedObjects), and the two machines (Followed). This crate
//! stands on `type_safety`, `typed_machine`, `mote_model`, `jvm_model` and `account`.
#![tactic(auto)]
