//! The numbers and slices that the parts of a class file are made of.

ghost use Rattle.byte_read.specs.Reading.{Answers};
ghost use Rattle.class_file.specs.Reading.{u2_at, u4_at, slice_at};

use crate::refusal::ReadRefusal;

/// A `u2`, and the bytes after it.
pub(crate) fn u2_at(bytes: &[u8]) -> Result<(u16, &[u8]), ReadRefusal>
    ensures { Answers (λ x. (x.0, x.1.now)) result (u2_at bytes.now) }
{
    byte_read::u2_at(ReadRefusal::Truncated, bytes)
}

/// A `u4`, and the bytes after it.
pub(crate) fn u4_at(bytes: &[u8]) -> Result<(u32, &[u8]), ReadRefusal>
    ensures { Answers (λ x. (x.0, x.1.now)) result (u4_at bytes.now) }
{
    byte_read::u4_at(ReadRefusal::Truncated, bytes)
}

/// So many bytes, and those after them.
pub(crate) fn slice_at(size: usize, bytes: &[u8]) -> Result<(&[u8], &[u8]), ReadRefusal>
    ensures { Answers (λ x. (x.0.now, x.1.now)) result (slice_at size bytes.now) }
{
    byte_read::slice_at(ReadRefusal::Truncated, size, bytes)
}
