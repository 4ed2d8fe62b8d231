//! Modified UTF-8 (JVMS 4.4.7).

ghost use Rattle.std.specs.Prelude.{◌≡◌, IsTrue};
ghost use Rattle.std.specs.Option.{option_copied};
ghost use Rattle.class_pool.specs.PoolReading.{is_modified_utf8, after_unit, is_single, is_last, is_double, is_triple};

/// The byte is a unit of its own.
fn is_single(a: u8) -> bool
    ensures { result ≡ is_single a }
{
    matches!(a, 1..=0x7f)
}

/// The byte stands second or third in a unit.
fn is_last(b: u8) -> bool
    ensures { result ≡ is_last b }
{
    matches!(b, 0x80..=0xbf)
}

/// The bytes are a unit: 0, or one that needs two.
fn is_double(a: u8, b: u8) -> bool
    ensures { result ≡ is_double a b }
{
    (a == 0xc0 && b == 0x80) || (a >= 0xc2 && a < 0xe0 && is_last(b))
}

/// The bytes are a unit that needs three.
fn is_triple(a: u8, b: u8, c: u8) -> bool
    ensures { result ≡ is_triple a b c }
{
    ((a == 0xe0 && b >= 0xa0) || (a > 0xe0 && a < 0xf0)) && is_last(b) && is_last(c)
}

/// The bytes after the unit at the prefix, where there is one.
#[tactic(auto, unfolding(crate::specs::PoolReading::after_unit))]
fn after_unit(bytes: &[u8]) -> Option<&[u8]>
    ensures { option_copied result ≡ after_unit bytes.now }
{
    match bytes {
        [a, rest @ ..] if is_single(*a) => Some(rest),
        [a, b, rest @ ..] if is_double(*a, *b) => Some(rest),
        [a, b, c, rest @ ..] if is_triple(*a, *b, *c) => Some(rest),
        _ => None,
    }
}

/// The bytes are a text: units in one, two or three bytes.
pub(crate) fn is_modified_utf8(bytes: &[u8]) -> bool
    ensures { result ≡ is_modified_utf8 bytes.now }
{
    let mut rest = bytes;
    while !rest.is_empty() {
        match after_unit(rest) {
            Some(after) => rest = after,
            None => return false,
        }
    }
    true
}
