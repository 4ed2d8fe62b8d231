ghost use Rattle.std.specs.Prelude.{[], ◌∷◌};
ghost use Rattle.jvm_model.specs.ClosedSet.{ClosedSet};
ghost use Rattle.jvm_model.specs.Entry.{EntryPoint};
ghost use Rattle.jvm_model.specs.Linking.{Members};
ghost use Rattle.jvm_model.specs.Phases.{SetSize, Reading, MethodCode};
ghost use Rattle.jvm_model.specs.Verdict.{AreFunctions};
ghost use Rattle.jvm_model.specs.Verification.{Verification};

/// Each phase up to that of types has an answer for each set of files of bytes, and one at most.
pub fn early_phases_are_functions()
    ensures { AreFunctions (SetSize ∷ Reading ∷ MethodCode ∷ ClosedSet ∷ Members ∷ EntryPoint ∷ Verification ∷ []) }
{}
