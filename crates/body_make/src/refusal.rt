ghost use Rattle.std.specs.Prelude.{◌≡◌};
ghost use Rattle.body_make.specs.Refusals.{no_memory};

use std::alloc::{AllocError, AllocFailed};

/// Why the classes of a set do not stand together.
#[derive(Clone, Copy, Debug, PartialEq, Eq)]
pub enum LinkCause {
    /// What an instruction or an exception table names is not there (JVMS 5.4.3).
    Unresolved,
    /// What is named may not be used from the class (JVMS 5.4.4).
    Denied,
    /// What is named is not of the kind that is asked for.
    WrongKind,
    /// A method may not stand beside one above it: one of them alone is static, or the upper one is final, or
    /// is of another package alone, or the lower one is private; or a class selects one that is not public for a
    /// method of an interface (member 0).
    BadOverride,
    /// A class that is not abstract selects no method with code for an abstract method that it or a class or
    /// interface above it declares.
    MissingBody,
    /// The constant of a static field is none of its type (the member is the field, and the value is 1), or the
    /// initialiser of a class is no run of pairs and a return (the pc is the first at which none goes on).
    BadInitialiser,
    /// No file declares `public static main()V`.
    NoMain,
    /// There was no memory.
    Memory,
}

/// Why the classes of a set do not stand together, and where. A number that the cause does not use is 0.
#[derive(Clone, Copy, Debug, PartialEq, Eq)]
pub struct LinkRefusal {
    pub cause: LinkCause,
    /// The position of the file in the set.
    pub file: u32,
    /// The position of the method, or of the field, in its class.
    pub member: u32,
    /// The pc of the instruction, in bytes from the code's start.
    pub pc: u32,
    pub value: u32,
}

/// There was no memory; no place is named.
pub(crate) const NO_MEMORY: LinkRefusal = LinkRefusal {
    cause: LinkCause::Memory,
    file: 0,
    member: 0,
    pc: 0,
    value: 0,
};

impl From<AllocError> for LinkRefusal {
    ghost from_gives = { λ _ e. e ≡ no_memory };

    fn from(_e: AllocError) -> LinkRefusal {
        NO_MEMORY
    }
}

impl<T: Drop> From<AllocFailed<T>> for LinkRefusal {
    ghost from_gives = { λ _ e. e ≡ no_memory };

    fn from(_e: AllocFailed<T>) -> LinkRefusal {
        NO_MEMORY
    }
}
