//! The account of a run, whichever machine runs: a step answers a move, which says what it needs, and the account says
//! whether it goes on within bounds of heap, stack and ticks. The definitions are in specs/, and proofs/ has the laws of
//! runs, over all machines: a run has one end, and has one where its machine is measured; a machine that follows another
//! ends as it does; limits of heap and stack cut a run and change nothing else; and a collection keeps the least closed
//! set of names. This crate stands on `dialogue`.
#![tactic(auto)]
