//! Runs end: both machines are measured. In a state that runs come to a machine is never stuck, and a move that is no tick
//! lowers a rank, which is the code behind the pcs of the frames; so a budget of ticks ends each run. What is said of it is
//! in specs/Measured, and the lemmas are in proofs/. This crate stands on `split_safety`, `type_safety` and `account`.
#![tactic(auto)]

ghost use Rattle.run_measures.specs.Measured.{SplitIsMeasured, TypedIsMeasured};

/// The split machine of a sound image is measured in its reached states, and the typed machine of a set in the states that
/// fit its types.
pub fn runs_are_measured()
    ensures split { SplitIsMeasured }
    ensures typed { TypedIsMeasured }
{}
