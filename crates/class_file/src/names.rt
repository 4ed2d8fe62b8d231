//! What the indexes of a class file name in its constant pool.

ghost use Rattle.std.specs.Prelude.{◌≡◌};
ghost use Rattle.class_pool.specs.Pool.{utf8_at, is_utf8_at, is_class_at};
ghost use Rattle.class_file.specs.Rules.{is_named, is_array_name, names_class, is_special_name};

use class_pool::{Const, Pool};

/// The entry at an index is a text.
pub(crate) fn is_utf8(pool: &Pool, index: u16) -> bool
    ensures { result ≡ is_utf8_at pool.now index }
{
    matches!(pool.get(index), Some(Const::Utf8(_)))
}

/// The entry at an index is a class.
pub(crate) fn is_class(pool: &Pool, index: u16) -> bool
    ensures { result ≡ is_class_at pool.now index }
{
    matches!(pool.get(index), Some(Const::Class(_)))
}

/// The text at an index is this one.
pub(crate) fn is_text(pool: &Pool, index: u16, text: &[u8]) -> bool
    ensures { result ≡ is_named text.now (utf8_at pool.now index) }
{
    match pool.utf8(index) {
        Some(found) => found == text,
        None => false,
    }
}

/// The text at an index begins as only the names of constructors and initialisers do (JVMS 2.9).
pub(crate) fn is_special_name(pool: &Pool, index: u16) -> bool
    ensures { result ≡ is_special_name (utf8_at pool.now index) }
{
    match pool.utf8(index) {
        Some(name) => name.starts_with(b"<"),
        None => false,
    }
}

/// The name begins with a bracket.
fn is_array_name(name: &[u8]) -> bool
    ensures { result ≡ is_array_name name.now }
{
    name.starts_with(b"[")
}

/// The entry at an index is a class and no array (JVMS 4.1).
pub(crate) fn names_class(pool: &Pool, index: u16) -> bool
    ensures { result ≡ names_class pool.now index }
{
    match pool.class_name(index) {
        Some(name) => !is_array_name(name),
        None => false,
    }
}
