//! The kinds of the entries that other entries name.

ghost use Rattle.std.specs.Prelude.{◌≡◌};
ghost use Rattle.class_pool.specs.Pool.{is_utf8_at, is_class_at, is_name_and_type_at};

use crate::pool::{Const, Pool};

impl Pool {
    /// The entry at an index is a text.
    pub(crate) fn is_utf8(&self, index: u16) -> bool
        ensures { result ≡ is_utf8_at self.now index }
    {
        matches!(self.get(index), Some(Const::Utf8(_)))
    }

    /// The entry at an index is a class.
    pub(crate) fn is_class(&self, index: u16) -> bool
        ensures { result ≡ is_class_at self.now index }
    {
        matches!(self.get(index), Some(Const::Class(_)))
    }

    /// The entry at an index is a name and type.
    pub(crate) fn is_name_and_type(&self, index: u16) -> bool
        ensures { result ≡ is_name_and_type_at self.now index }
    {
        matches!(self.get(index), Some(Const::NameAndType(_, _)))
    }
}
