ghost use Rattle.std.specs.Prelude.{◌≡◌};
ghost use Rattle.class_code.specs.declared.refusal.CodeRefusal.TheVariants as CodeRefusal;
ghost use Rattle.class_code.specs.declared.refusal.Fault.TheVariants.{Memory};

use std::alloc::{AllocError, AllocFailed};

/// Why code was not decoded. The place is the pc of the first instruction that fails, or else of the
/// first jump or switch of which a target is no start of an instruction.
#[derive(Clone, Copy, Debug, PartialEq, Eq)]
pub enum CodeRefusal {
    /// The opcode is one of the Java standard that is left out.
    Unsupported { pc: u32, opcode: u8 },
    /// No instruction of the Java standard stands there, or it jumps to no instruction.
    BadCode { pc: u32 },
    /// There was no memory for the list. Code of 4 GiB and more is answered so too.
    Memory,
}

/// Why no instruction was read.
#[derive(Clone, Copy, Debug, PartialEq, Eq)]
pub(crate) enum Fault {
    Unsupported(u8),
    BadCode,
    Memory,
}

impl<T: Drop> From<AllocFailed<T>> for CodeRefusal {
    ghost from_gives = { λ _ e. e ≡ CodeRefusal.Memory };

    fn from(_e: AllocFailed<T>) -> CodeRefusal {
        CodeRefusal::Memory
    }
}

impl From<AllocError> for Fault {
    ghost from_gives = { λ _ e. e ≡ Memory };

    fn from(_e: AllocError) -> Fault {
        Fault::Memory
    }
}

impl<T: Drop> From<AllocFailed<T>> for Fault {
    ghost from_gives = { λ _ e. e ≡ Memory };

    fn from(_e: AllocFailed<T>) -> Fault {
        Fault::Memory
    }
}
