ghost use Rattle.std.specs.Prelude.{◌≡◌};
ghost use Rattle.class_make.specs.declared.refusal.DraftRefusal.TheVariants.{Memory};

use std::alloc::{AllocError, AllocFailed};

/// Why a class was not drafted.
#[derive(Clone, Copy, Debug, PartialEq, Eq)]
pub enum DraftRefusal {
    /// The constants that are new do not fit the pool: it would have more than 65,534 places.
    Full,
    /// No bytes are a class file with the drafted record.
    BadShape,
    /// There was no memory for the draft.
    Memory,
}

impl From<AllocError> for DraftRefusal {
    ghost from_gives = { λ _ e. e ≡ Memory };

    fn from(_e: AllocError) -> DraftRefusal {
        DraftRefusal::Memory
    }
}

impl<T: Drop> From<AllocFailed<T>> for DraftRefusal {
    ghost from_gives = { λ _ e. e ≡ Memory };

    fn from(_e: AllocFailed<T>) -> DraftRefusal {
        DraftRefusal::Memory
    }
}
