//! Texts of a pool.

ghost use Rattle.std.specs.Prelude.{◌≡◌, [], unwrap_or};
ghost use Rattle.class_pool.specs.Pool.{utf8_at};

use class_pool::Pool;

/// The text at an index; empty where there is none.
pub(crate) fn text_at(pool: &Pool, index: u16) -> &[u8]
    ensures { result.now ≡ unwrap_or (utf8_at pool.now index) [] }
{
    match pool.utf8(index) {
        Some(text) => text,
        None => &[],
    }
}
