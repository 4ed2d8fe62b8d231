ghost use Rattle.std.specs.Prelude.{◌≡◌, List, Option};
ghost use Rattle.class_file.specs.declared.record.ClassFile.{ClassFile};
ghost use Rattle.jvm_model.specs.declared.refusal.Refusal.{Refusal};
ghost use Rattle.jvm_model.specs.InitialStatics.{StaticsAreKept, LastWriteCounts};
ghost use Rattle.jvm_model.specs.Linking.{Linking};
ghost use Rattle.jvm_model.specs.Entry.{entry_refusal, Entering};

/// The phase of members has an answer for each list of classes, and one at most; that of the entry is a function
/// of them.
pub fn one_linking()
    ensures total { (files : List ClassFile) → (found : Option Refusal) × Linking files found }
    ensures unique { (files : List ClassFile) (first second : Option Refusal) → Linking files first → Linking files second → first ≡ second }
    ensures entry { (files : List ClassFile) → Entering files (entry_refusal files) }
    ensures one_entry { (files : List ClassFile) (first second : Option Refusal) → Entering files first → Entering files second → first ≡ second }
{}

/// What initialisers and constants set are the statics of a set before main starts: the last write to a field counts,
/// and each value is one that a write to its field keeps.
pub fn statics_are_set()
    ensures kept { StaticsAreKept }
    ensures last { LastWriteCounts }
{}
