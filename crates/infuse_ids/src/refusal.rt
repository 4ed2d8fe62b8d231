ghost use Rattle.std.specs.Prelude.{◌≡◌};
ghost use Rattle.infuse_ids.specs.declared.refusal.IdsRefusal.TheVariants.{Memory};

use std::alloc::{AllocError, AllocFailed};

/// Why a set was not numbered.
#[derive(Clone, Copy, Debug, PartialEq, Eq)]
pub enum IdsRefusal {
    /// A count is above its limit: 2 for types and 4 for methods, the library's 32 ids with them, 3 for selectors, 5 for
    /// static references, 6 for static cells, 7 for the cells of an object, with the two of its header.
    TooMany { what: u8, count: u32 },
    /// There was no memory for the numbers.
    Memory,
}

impl From<AllocError> for IdsRefusal {
    ghost from_gives = { λ _ e. e ≡ Memory };

    fn from(_e: AllocError) -> IdsRefusal {
        IdsRefusal::Memory
    }
}

impl<T: Drop> From<AllocFailed<T>> for IdsRefusal {
    ghost from_gives = { λ _ e. e ≡ Memory };

    fn from(_e: AllocFailed<T>) -> IdsRefusal {
        IdsRefusal::Memory
    }
}
