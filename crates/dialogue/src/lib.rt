//! What a run shows: its dialogue with a console, its ending, and the input that it leaves. The typed
//! machine and the machine of the infusions speak of the same record, and run in the same sense. The
//! definitions are in specs/; the functions carry laws of dialogues and of answers to gets,
//! and proofs/ has those of runs: a run ends in one way at most, and a machine that follows another ends
//! as it does. This crate stands on `std` alone.
#![tactic(auto)]

ghost use Rattle.std.specs.Prelude.{◌≡◌, ℕ, pos, negsuc, ◌%◌, List, [], ◌∷◌, ◌++◌};
ghost use Rattle.dialogue.specs.Answers.{answers_of, bytes_of};
ghost use Rattle.dialogue.specs.Dialogue.{Item, puts, notes, noting};
ghost use Rattle.dialogue.specs.Natives.{next_byte, after_byte};

/// What is put by two dialogues, one after the other, is what each puts, and so for notes. Noting
/// bytes puts nothing and notes these bytes.
pub fn dialogues_join()
    ensures puts { (first second : List Item) → puts (first ++ second) ≡ puts first ++ puts second }
    ensures notes { (first second : List Item) → notes (first ++ second) ≡ notes first ++ notes second }
    ensures noting_puts { (bytes : List ℕ) → puts (noting bytes) ≡ [] }
    ensures noting_notes { (bytes : List ℕ) → notes (noting bytes) ≡ bytes }
{}

/// A console that tells its input answers with its bytes in order, and then with the end.
pub fn inputs_are_answered()
    ensures byte { (byte : ℕ) (rest : List ℕ) → next_byte (answers_of (byte ∷ rest)) ≡ pos (byte % 256) }
    ensures after { (byte : ℕ) (rest : List ℕ) → after_byte (answers_of (byte ∷ rest)) ≡ answers_of rest }
    ensures none { next_byte (answers_of []) ≡ negsuc 0 }
    ensures whole { (input : List ℕ) → bytes_of (answers_of input) ≡ input }
{}
