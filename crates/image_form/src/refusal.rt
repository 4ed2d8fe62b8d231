ghost use Rattle.std.specs.Prelude.{◌≡◌};
ghost use Rattle.image_form.specs.declared.refusal.FormRefusal.TheVariants.{Memory};

use std::alloc::{AllocError, AllocFailed};

/// Why bytes were not read as an infusion: the first rule that they fail. The magic and the version come
/// first, then the tables in the order of the bytes, and after the id of main what the dispatch rows
/// name. Bytes after the end come last.
#[derive(Clone, Copy, Debug, PartialEq, Eq)]
pub enum FormRefusal {
    /// The first four bytes are not `44 4a 49 4e`, or are not there.
    NotInfusion,
    /// The version is there, and is not 1.
    FormVersion { version: u16 },
    /// The bytes end within a part, and no rule was failed before.
    Truncated,
    /// An infusion is a proper prefix of the bytes.
    TrailingBytes,
    /// An entry breaks a rule of its table: 0 types, 1 selectors, 2 methods, 3 statics, 4 main. The index
    /// counts the table's entries from 0; it is 0 for a count.
    BadTable { table: u8, index: u16 },
    /// There was no memory for the record.
    Memory,
}

impl From<AllocError> for FormRefusal {
    ghost from_gives = { λ _ e. e ≡ Memory };

    fn from(_e: AllocError) -> FormRefusal {
        FormRefusal::Memory
    }
}

impl<T: Drop> From<AllocFailed<T>> for FormRefusal {
    ghost from_gives = { λ _ e. e ≡ Memory };

    fn from(_e: AllocFailed<T>) -> FormRefusal {
        FormRefusal::Memory
    }
}
