use std::alloc::{AllocError, AllocFailed};
use std::fmt;

/// Why the text of a row is none.
#[derive(Debug, Drop, Clone, Copy, PartialEq, Eq)]
pub enum RowFault {
    /// There was no memory for the row.
    Memory,
    /// A quoted text has no end.
    Quote,
    /// The digits are no bytes.
    Hex,
    /// No bytes have this name.
    Name,
    /// A number is none, or does not fit its width.
    Number,
    /// No line begins so.
    Key,
    /// The row lacks what its kind needs.
    Lacking,
}

impl From<AllocError> for RowFault {
    fn from(_error: AllocError) -> RowFault {
        RowFault::Memory
    }
}

impl<T: Drop> From<AllocFailed<T>> for RowFault {
    fn from(_error: AllocFailed<T>) -> RowFault {
        RowFault::Memory
    }
}

impl fmt::Display for RowFault {
    fn fmt<W: fmt::Write>(&self, f: &mut fmt::Formatter<W>) -> fmt::Result {
        f.write_str(match self {
            RowFault::Memory => "no memory",
            RowFault::Quote => "a text without its end",
            RowFault::Hex => "no hex digits",
            RowFault::Name => "no such name",
            RowFault::Number => "no such number",
            RowFault::Key => "no such line",
            RowFault::Lacking => "a line is lacking",
        })
    }
}
