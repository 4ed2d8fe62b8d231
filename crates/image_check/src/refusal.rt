//! Why an image or a method is not checked.

ghost use Rattle.std.specs.Prelude.{◌≡◌};
ghost use Rattle.image_check.specs.declared.refusal.CheckCause.TheVariants.{Memory};

use std::alloc::{AllocError, AllocFailed};

/// Which rule fails.
#[derive(Clone, Copy, Debug, PartialEq, Eq)]
pub enum CheckCause {
    /// No instruction is at the place.
    BadCode,
    /// The instruction jumps to a place that is no start of an instruction.
    BadTarget,
    /// The instruction names what is not there, or not of the kind that it needs.
    BadId,
    /// Operands are missing, a return is not the method's result, or two depths reach one place.
    BadDepth,
    /// Locals and operands exceed the body of the frame.
    Crosses,
    /// Control passes the end of the code.
    Falls,
    /// The machine does not run the instruction yet.
    Unbuilt,
    /// There was no memory for the check.
    Memory,
}

/// Why an image is not checked, and where: the id of the method, and the place in its code in bytes.
/// Both are 0 for want of memory.
#[derive(Clone, Copy, Debug, PartialEq, Eq)]
pub struct CheckRefusal {
    pub cause: CheckCause,
    pub method: u16,
    pub pc: u16,
}

/// Why a method is not checked, and the place in its code.
#[derive(Clone, Copy, Debug, PartialEq, Eq)]
pub(crate) struct Fault {
    pub cause: CheckCause,
    pub pc: u16,
}

/// Want of memory, which has no place.
const NO_MEMORY: Fault = Fault {
    cause: CheckCause::Memory,
    pc: 0,
};

impl From<AllocError> for Fault {
    ghost from_gives = { λ _ fault. fault.cause ≡ Memory };

    fn from(_e: AllocError) -> Fault {
        NO_MEMORY
    }
}

impl<T: Drop> From<AllocFailed<T>> for Fault {
    ghost from_gives = { λ _ fault. fault.cause ≡ Memory };

    fn from(_e: AllocFailed<T>) -> Fault {
        NO_MEMORY
    }
}
