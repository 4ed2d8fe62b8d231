//! Typed code is never stuck: in a set that the phases up to that of types accept, moves from a state that fits a right
//! table of types of each method lead only to states that fit, and from each of them there is a move. The definitions
//! are in specs/: the law (Safety), what fits (Fitting), what a set gives (Facts), and the parts of which moves are made
//! (Parts). This crate has no code of its own. It stands on `typed_machine`, `type_rounds` and `jvm_model`.
#![tactic(auto)]

ghost use Rattle.type_safety.specs.Parts.{AreParts};
ghost use Rattle.type_safety.specs.Safety.{FactsKeepSafe, PhasesGiveFacts, TypedCodeIsSafe};
ghost use Rattle.type_safety.specs.Starts.{StartsFit};

/// From a state of typed code that fits its types the typed machine goes on for ever or stops, and is never stuck. It is
/// so since the phases of a set give facts, as that what an instruction names is there and of the type that it says; and
/// where the facts hold, the move from a state that fits goes on to a state that fits, or stops.
pub fn typed_code_is_safe()
    ensures safe { TypedCodeIsSafe }
    ensures facts { PhasesGiveFacts }
    ensures moves { FactsKeepSafe }
    ensures parts { AreParts }
{}

/// The state in which a run of such a set starts fits its types: main has a body and takes nothing, and each static holds
/// a value that fits its field.
pub fn typed_code_starts()
    ensures { StartsFit }
{}
