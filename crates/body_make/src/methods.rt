//! What methods are called.

ghost use Rattle.std.specs.Prelude.{◌≡◌, [], unwrap_or};
ghost use Rattle.class_pool.specs.Pool.{utf8_at};
ghost use Rattle.jvm_model.specs.Overrides.{is_special_name as is_special_name_of};

use class_pool::Pool;

/// The name of constructors (JVMS 2.9).
const CONSTRUCTOR: &[u8] = b"<init>";

/// The name of the initialiser of a class (JVMS 2.9).
pub(crate) const INITIALISER: &[u8] = b"<clinit>";

/// The text at an index; empty where there is none.
pub(crate) fn text_at(pool: &Pool, index: u16) -> &[u8]
    ensures { result.now ≡ unwrap_or (utf8_at pool.now index) [] }
{
    match pool.utf8(index) {
        Some(text) => text,
        None => &[],
    }
}

/// The name is that of a constructor or of a class's initialiser; these override nothing.
pub(crate) fn is_special_name(name: &[u8]) -> bool
    ensures { result ≡ is_special_name_of name.now }
{
    name == CONSTRUCTOR || name == INITIALISER
}
