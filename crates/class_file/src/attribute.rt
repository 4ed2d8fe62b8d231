//! Attributes as such (JVMS 4.7): a name, a length, and so many bytes.

ghost use Rattle.std.specs.Prelude.{◌≡◌};
ghost use Rattle.byte_read.specs.Reading.{steps_at};
ghost use Rattle.class_file.specs.Reading.{Gives};
ghost use Rattle.class_file.specs.ReadingMembers.{text_at, info_at, skip_at, skipped, skip_all_at};

use crate::field::{slice_at, u2_at, u4_at};
use crate::names::is_utf8;
use crate::refusal::ReadRefusal;
use class_pool::Pool;

/// The index of a text.
#[tactic(auto, unfolding(crate::specs::ReadingMembers::text_at))]
pub(crate) fn text_at<'a>(pool: &Pool, bytes: &'a [u8]) -> Result<(u16, &'a [u8]), ReadRefusal>
    ensures { Gives (λ x. (x.0, x.1.now)) result (text_at pool.now bytes.now) }
{
    let (index, rest) = u2_at(bytes)?;
    if !is_utf8(pool, index) {
        return Err(ReadRefusal::BadShape);
    }
    Ok((index, rest))
}

/// What an attribute holds: a length, and so many bytes.
#[tactic(auto, unfolding(crate::specs::ReadingMembers::info_at))]
pub(crate) fn info_at(bytes: &[u8]) -> Result<(&[u8], &[u8]), ReadRefusal>
    ensures { Gives (λ x. (x.0.now, x.1.now)) result (info_at bytes.now) }
{
    let (size, rest) = u4_at(bytes)?;
    slice_at(size as usize, rest)
}

/// What follows an attribute of which only the name is asked.
#[tactic(auto, unfolding(crate::specs::ReadingMembers::skip_at))]
fn skip_at<'a>(pool: &Pool, bytes: &'a [u8]) -> Result<&'a [u8], ReadRefusal>
    ensures { Gives (λ rest. rest.now) result (skip_at pool.now bytes.now) }
{
    let (_, rest) = text_at(pool, bytes)?;
    let (_, rest) = info_at(rest)?;
    Ok(rest)
}

/// What follows so many attributes.
fn skip_many<'a>(pool: &Pool, count: u16, bytes: &'a [u8]) -> Result<&'a [u8], ReadRefusal>
    ensures { Gives (λ rest. (tt, rest.now)) result (steps_at (skipped pool.now) tt count bytes.now) }
{
    let mut rest = bytes;
    for _ in 0..count {
        rest = skip_at(pool, rest)?;
    }
    Ok(rest)
}

/// What follows a list of attributes, with its count.
#[tactic(auto, unfolding(crate::specs::ReadingMembers::skip_all_at, crate::specs::Reading::counted_at))]
pub(crate) fn skip_all_at<'a>(pool: &Pool, bytes: &'a [u8]) -> Result<&'a [u8], ReadRefusal>
    ensures { Gives (λ rest. rest.now) result (skip_all_at pool.now bytes.now) }
{
    let (count, rest) = u2_at(bytes)?;
    skip_many(pool, count, rest)
}
