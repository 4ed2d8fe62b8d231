ghost use Rattle.std.specs.Prelude.{◌≡◌};
ghost use Rattle.infuse_emit.specs.declared.refusal.EmitRefusal.TheVariants.{Memory};

use std::alloc::{AllocError, AllocFailed};

/// Why a method has no code.
#[derive(Clone, Copy, Debug, PartialEq, Eq)]
pub enum EmitRefusal {
    /// The code of a method, by its position in its class, has so many bytes, which are more than 65,535.
    CodeTooLong { method: u16, length: u32 },
    /// There was no memory.
    Memory,
}

impl From<AllocError> for EmitRefusal {
    ghost from_gives = { λ _ e. e ≡ Memory };

    fn from(_e: AllocError) -> EmitRefusal {
        EmitRefusal::Memory
    }
}

impl<T: Drop> From<AllocFailed<T>> for EmitRefusal {
    ghost from_gives = { λ _ e. e ≡ Memory };

    fn from(_e: AllocFailed<T>) -> EmitRefusal {
        EmitRefusal::Memory
    }
}
