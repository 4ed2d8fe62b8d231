ghost use Rattle.std.specs.Prelude.{◌≡◌};
ghost use Rattle.class_pool.specs.declared.descriptor.DescriptorRefusal.TheVariants.{Memory};

use crate::pool::Text;
use item_list::Items;
use std::alloc::{AllocError, AllocFailed};

/// What an array is an array of (JVMS 4.3.2).
#[derive(Debug, Drop)]
pub enum Base {
    Byte,
    Char,
    Double,
    Float,
    Int,
    Long,
    Short,
    Boolean,
    /// The class with this name, its parts with `/` between them.
    Class(Text),
}

/// The type of a field, a parameter or a result (JVMS 4.3.2).
#[derive(Debug, Drop)]
pub enum Kind {
    Byte,
    Char,
    Double,
    Float,
    Int,
    Long,
    Short,
    Boolean,
    /// The class with this name, its parts with `/` between them.
    Class(Text),
    /// An array of 1 to 255 dimensions.
    Array { dims: u8, of: Base },
}

/// The types of a method's parameters, and of its result where it has one (JVMS 4.3.3).
#[derive(Debug, Drop)]
pub struct Descriptor {
    pub params: Items<Kind>,
    pub result: Option<Kind>,
}

/// Why a text was not read as a descriptor.
#[derive(Clone, Copy, Debug, PartialEq, Eq)]
pub enum DescriptorRefusal {
    /// The text is no descriptor of JVMS 4.3, or has a type of more than 255 dimensions.
    BadDescriptor,
    /// There was no memory for the descriptor.
    Memory,
}

impl From<AllocError> for DescriptorRefusal {
    ghost from_gives = { λ _ e. e ≡ Memory };

    fn from(_e: AllocError) -> DescriptorRefusal {
        DescriptorRefusal::Memory
    }
}

impl<T: Drop> From<AllocFailed<T>> for DescriptorRefusal {
    ghost from_gives = { λ _ e. e ≡ Memory };

    fn from(_e: AllocFailed<T>) -> DescriptorRefusal {
        DescriptorRefusal::Memory
    }
}
