ghost use Rattle.std.specs.Prelude.{◌≡◌};
ghost use Rattle.class_file.specs.declared.refusal.ReadRefusal.TheVariants.{Memory};

use std::alloc::{AllocError, AllocFailed};

/// Why bytes were not read as a class file: what is wrong first, in the order of the bytes. An index
/// is that of an entry of the constant pool.
#[derive(Clone, Copy, Debug, PartialEq, Eq)]
pub enum ReadRefusal {
    /// The first four bytes are not `ca fe ba be`, or are not there.
    NotClass,
    /// The major version is not one of 45 to 52.
    Version { major: u16 },
    /// A part does not end within the bytes.
    Truncated,
    /// So many bytes follow the class.
    TrailingBytes { count: u32 },
    /// The entry at this index has an unknown tag, is no modified UTF-8, or names what is not there
    /// (JVMS 4.4). The index is 0 where the count is 0.
    BadPool { index: u16 },
    /// One of the rules of flags, names, attributes or code does not hold (JVMS 4.1, 4.5 to 4.7).
    BadShape,
    /// The descriptor at this index is none of JVMS 4.3.
    BadDescriptor { index: u16 },
    /// There are more than 1,048,576 bytes. A length past the field is the field's greatest number.
    TooLarge { length: u32 },
    /// There was no memory for the record.
    Memory,
}

impl From<AllocError> for ReadRefusal {
    ghost from_gives = { λ _ e. e ≡ Memory };

    fn from(_e: AllocError) -> ReadRefusal {
        ReadRefusal::Memory
    }
}

impl<T: Drop> From<AllocFailed<T>> for ReadRefusal {
    ghost from_gives = { λ _ e. e ≡ Memory };

    fn from(_e: AllocFailed<T>) -> ReadRefusal {
        ReadRefusal::Memory
    }
}
