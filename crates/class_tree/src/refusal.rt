ghost use Rattle.std.specs.Prelude.{◌≡◌};
ghost use Rattle.class_tree.specs.declared.refusal.TreeRefusal.TheVariants.{Memory};

use std::alloc::{AllocError, AllocFailed};

/// Why files are no closed set of classes. A file is named by its position in the set, a field or a method by
/// its position in its class.
#[derive(Clone, Copy, Debug, PartialEq, Eq)]
pub enum TreeRefusal {
    /// The class has the name of an earlier file's class.
    Duplicate { file: u32 },
    /// The name of the class begins with `java/` or `mote/`.
    Reserved { file: u32 },
    /// A class that is named is not in the set: by the superclass or a superinterface where `value` is 0, and
    /// else by the descriptor of a field, where it is 1, or of a method, where it is 2.
    MissingClass { file: u32, member: u32, value: u32 },
    /// The superclass is an interface or final, the superclass of an interface is not `java/lang/Object`, or
    /// a superinterface is a class.
    BadSuper { file: u32 },
    /// The class is above itself.
    Circular { file: u32 },
    /// The descriptor of a field, where `value` is 1, or of a method, where it is 2, has a type of long,
    /// float or double.
    WideType { file: u32, member: u32, value: u32 },
    /// There are more than 512 files; `count` is their number, at most 4,294,967,295.
    TooMany { count: u32 },
    /// There was no memory.
    Memory,
}

impl From<AllocError> for TreeRefusal {
    ghost from_gives = { λ _ e. e ≡ Memory };

    fn from(_e: AllocError) -> TreeRefusal {
        TreeRefusal::Memory
    }
}

impl<T: Drop> From<AllocFailed<T>> for TreeRefusal {
    ghost from_gives = { λ _ e. e ≡ Memory };

    fn from(_e: AllocFailed<T>) -> TreeRefusal {
        TreeRefusal::Memory
    }
}
