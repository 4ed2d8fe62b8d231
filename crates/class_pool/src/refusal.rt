ghost use Rattle.std.specs.Prelude.{◌≡◌};
ghost use Rattle.class_pool.specs.declared.refusal.PoolRefusal.TheVariants.{Memory};

use std::alloc::{AllocError, AllocFailed};

/// Why bytes were not read as a constant pool: the first place at which they are none. The entries
/// are tested one by one, and then, when all were read, what they name. An index is that of the
/// entry, from 1 on.
#[derive(Clone, Copy, Debug, PartialEq, Eq)]
pub enum PoolRefusal {
    /// The bytes end within the count or within an entry, a text of whatever bytes among them.
    Truncated,
    /// The tag is unknown, or it is that of a long or a double whose second place is not below the
    /// count.
    BadTag { index: u16 },
    /// The entry names one that is not there or is of another kind, or the kind of a method handle
    /// is not 1 to 9. The index is 0 where the count is 0.
    BadIndex { index: u16 },
    /// The text is not modified UTF-8.
    BadUtf8 { index: u16 },
    /// There was no memory for the pool.
    Memory,
}

impl From<AllocError> for PoolRefusal {
    ghost from_gives = { λ _ e. e ≡ Memory };

    fn from(_e: AllocError) -> PoolRefusal {
        PoolRefusal::Memory
    }
}

impl<T: Drop> From<AllocFailed<T>> for PoolRefusal {
    ghost from_gives = { λ _ e. e ≡ Memory };

    fn from(_e: AllocFailed<T>) -> PoolRefusal {
        PoolRefusal::Memory
    }
}
