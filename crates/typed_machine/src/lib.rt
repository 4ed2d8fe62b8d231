//! The typed machine: what class files mean, said without halves, widths or offsets. The definitions are in specs/: a
//! state (TypedState), what the machine knows of a set (TypedWorld), the parts of its moves (TypedMoves, TypedArrays,
//! TypedCalls), and its step, for each family of instructions (TypedStep). The function carries a law. This crate stands
//! on `account`, `jvm_model`, `class_tree` and `body_form`.
#![tactic(auto)]

ghost use Rattle.typed_machine.specs.TypedLaws.{ObjectsKeepTypes};

/// A move leaves each object that is there its type, and its name.
pub fn objects_keep_types()
    ensures { ObjectsKeepTypes }
{}
