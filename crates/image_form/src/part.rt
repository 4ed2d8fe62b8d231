//! The bytes and numbers that an infusion is made of.

ghost use Rattle.byte_read.specs.Reading.{Answers};
ghost use Rattle.image_form.specs.Refused.{Shows};
ghost use Rattle.image_form.specs.Reading.{u1_at, u2_at, slice_at, name_at};

use crate::refusal::FormRefusal;
use item_list::Items;
use std::alloc::Global;

/// A number of one byte, and the bytes after it.
pub(crate) fn u1_at(bytes: &[u8]) -> Result<(u8, &[u8]), FormRefusal>
    ensures { Answers (λ x. (x.0, x.1.now)) result (u1_at bytes.now) }
{
    byte_read::u1_at(FormRefusal::Truncated, bytes)
}

/// A number of two bytes, and the bytes after it.
pub(crate) fn u2_at(bytes: &[u8]) -> Result<(u16, &[u8]), FormRefusal>
    ensures { Answers (λ x. (x.0, x.1.now)) result (u2_at bytes.now) }
{
    byte_read::u2_at(FormRefusal::Truncated, bytes)
}

/// So many bytes, and those after them.
pub(crate) fn slice_at(
    alloc: Global,
    size: u16,
    bytes: &[u8],
) -> Result<(Items<u8>, &[u8]), FormRefusal>
    ensures { Shows (λ x. (x.0, x.1.now)) result (slice_at size bytes.now) }
{
    let (items, rest) = byte_read::slice_at(FormRefusal::Truncated, usize::from(size), bytes)?;
    Ok((Items::from_vec(Vec::from_slice(alloc, items)?), rest))
}

/// A name after its length, and the bytes after it.
#[tactic(auto, unfolding(crate::specs::Reading::name_at))]
pub(crate) fn name_at(alloc: Global, bytes: &[u8]) -> Result<(Items<u8>, &[u8]), FormRefusal>
    ensures { Shows (λ x. (x.0, x.1.now)) result (name_at bytes.now) }
{
    let (size, rest) = u2_at(bytes)?;
    slice_at(alloc, size, rest)
}
