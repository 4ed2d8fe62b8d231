//! Which texts are descriptors (JVMS 4.3), told over the text alone: no memory is asked for.

ghost use Rattle.std.specs.Prelude.{◌≡◌, ◌≤◌, ◌<◌, true, Option, None, length, is_some, IfSome};
ghost use Rattle.std.specs.Option.{option_copied};
ghost use Rattle.class_pool.specs.DescriptorReading.{suffix_of, after_byte, name_size, class_at, plain_base, base_at, brackets, kind_at, field_of, after_close, params_at, result_of, method_of};

use crate::descriptor::Base;

/// How many dimensions a type may have (JVMS 4.3.2).
pub(crate) const MOST_DIMS: usize = 255;

/// Whether a part of a class name begins after this byte, where the name goes on with it.
fn after_byte(begins: bool, byte: u8) -> Option<bool>
    ensures { result ≡ after_byte begins byte }
{
    match byte {
        b'/' if begins => None,
        b'/' => Some(true),
        b'.' | b';' | b'[' => None,
        _ => Some(false),
    }
}

/// How many bytes the class name at the prefix has (JVMS 4.2.1), up to its `;`.
pub(crate) fn name_size(text: &[u8]) -> Option<usize>
    ensures value { result ≡ name_size true text.now }
    ensures within { IfSome result (λ size. size < length text.now) }
{
    let mut begins = true;
    let mut size = 0;
    for byte in text {
        if *byte == b';' {
            return if begins { None } else { Some(size) };
        }
        begins = after_byte(begins, *byte)?;
        size += 1;
    }
    None
}

/// What follows the class name at the prefix and its `;`.
#[tactic(auto, unfolding(crate::specs::DescriptorReading::class_at))]
fn skip_class(text: &[u8]) -> Option<&[u8]>
    ensures { option_copied result ≡ suffix_of (class_at text.now) }
{
    let size = name_size(text)?;
    Some(&text[size + 1..])
}

/// The type of a letter.
pub(crate) fn plain_base(letter: u8) -> Option<Base>
    ensures { result ≡ plain_base letter }
{
    match letter {
        b'B' => Some(Base::Byte),
        b'C' => Some(Base::Char),
        b'D' => Some(Base::Double),
        b'F' => Some(Base::Float),
        b'I' => Some(Base::Int),
        b'J' => Some(Base::Long),
        b'S' => Some(Base::Short),
        b'Z' => Some(Base::Boolean),
        _ => None,
    }
}

/// What follows the type at the prefix that is no array.
#[tactic(auto, unfolding(crate::specs::DescriptorReading::base_at))]
fn skip_base(text: &[u8]) -> Option<&[u8]>
    ensures { option_copied result ≡ suffix_of (base_at text.now) }
{
    match text {
        [] => None,
        [b'L', rest @ ..] => skip_class(rest),
        [letter, rest @ ..] => match plain_base(*letter) {
            Some(_) => Some(rest),
            None => None,
        },
    }
}

/// How many `[` are at the prefix.
pub(crate) fn brackets(text: &[u8]) -> usize
    ensures value { result ≡ brackets text.now }
    ensures within { result ≤ length text.now }
{
    let mut dims = 0;
    for letter in text {
        if *letter != b'[' {
            return dims;
        }
        dims += 1;
    }
    dims
}

/// What follows the type at the prefix.
#[tactic(auto, unfolding(crate::specs::DescriptorReading::kind_at))]
fn skip_kind(text: &[u8]) -> Option<&[u8]>
    ensures { option_copied result ≡ suffix_of (kind_at text.now) }
{
    let dims = brackets(text);
    if dims > MOST_DIMS {
        return None;
    }
    skip_base(&text[dims..])
}

/// The text is a field's descriptor.
pub(crate) fn is_field_text(text: &[u8]) -> bool
    ensures { result ≡ is_some (field_of text.now) }
{
    match skip_kind(text) {
        Some(rest) => rest.is_empty(),
        None => false,
    }
}

/// What follows a `)`.
pub(crate) fn after_close(text: &[u8]) -> Option<&[u8]>
    ensures { option_copied result ≡ after_close text.now }
{
    match text {
        [b')', rest @ ..] => Some(rest),
        _ => None,
    }
}

/// What follows the types of the parameters and their `)`.
fn skip_params(text: &[u8]) -> Option<&[u8]>
    ensures { option_copied result ≡ suffix_of (params_at (length text.now) text.now) }
{
    let mut rest = text;
    // Each parameter has a byte at least.
    for _ in 0..text.len() {
        if let Some(suffix) = after_close(rest) {
            return Some(suffix);
        }
        match skip_kind(rest) {
            Some(suffix) => rest = suffix,
            None => return None,
        }
    }
    None
}

/// The text is that of a result.
#[tactic(auto, unfolding(crate::specs::DescriptorReading::result_of))]
fn is_result_text(text: &[u8]) -> bool
    ensures { result ≡ is_some (result_of text.now) }
{
    match text {
        [b'V'] => true,
        [] | [b'V', ..] => false,
        _ => is_field_text(text),
    }
}

/// The text is a method's descriptor.
#[tactic(auto, unfolding(crate::specs::DescriptorReading::method_of))]
pub(crate) fn is_method_text(text: &[u8]) -> bool
    ensures { result ≡ is_some (method_of text.now) }
{
    match text {
        [b'(', rest @ ..] => match skip_params(rest) {
            Some(rest) => is_result_text(rest),
            None => false,
        },
        _ => false,
    }
}
