ghost use Rattle.std.specs.Prelude.{◌≡◌};
ghost use Rattle.body_make.specs.declared.fault.Fault.TheVariants as fault;
ghost use Rattle.body_make.specs.Answers.{fault_of_descriptor};

use class_pool::DescriptorRefusal;
use std::alloc::{AllocError, AllocFailed};

/// Why what an instruction or an exception table names is not resolved.
#[derive(Clone, Copy, Debug, PartialEq, Eq)]
pub(crate) enum Fault {
    /// It is not there (JVMS 5.4.3).
    Unresolved,
    /// It is not of the kind that is asked for.
    WrongKind,
    /// It may not be used from the class (JVMS 5.4.4).
    Denied,
    /// There was no memory.
    Memory,
}

impl From<AllocError> for Fault {
    ghost from_gives = { λ _ e. e ≡ fault.Memory };

    fn from(_e: AllocError) -> Fault {
        Fault::Memory
    }
}

impl<T: Drop> From<AllocFailed<T>> for Fault {
    ghost from_gives = { λ _ e. e ≡ fault.Memory };

    fn from(_e: AllocFailed<T>) -> Fault {
        Fault::Memory
    }
}

impl From<DescriptorRefusal> for Fault {
    ghost from_gives = { λ why e. e ≡ fault_of_descriptor why };

    fn from(why: DescriptorRefusal) -> Fault {
        match why {
            DescriptorRefusal::BadDescriptor => Fault::Unresolved,
            DescriptorRefusal::Memory => Fault::Memory,
        }
    }
}
