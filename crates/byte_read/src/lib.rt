//! Reading bytes from the prefix on: a number in one, two or four bytes, most significant first, and
//! so many bytes, each with the bytes after it. Bytes that end before the part does get the refusal
//! that the caller names. The calls are `u1_at`, `u2_at`, `u4_at` and `slice_at`; specs/Reading.antt
//! has what they compute, and how a reader of a larger part is made of them. `u2_bytes`, `u4_bytes` and
//! `u8_bytes` are the bytes that a number is written in. This crate stands on the kit's `byteorder`.
#![tactic(auto)]

ghost use Rattle.std.specs.Prelude.{◌≡◌};
ghost use Rattle.byteorder.specs.Endian.{big_bytes};
ghost use Rattle.byte_read.specs.Reading.{Answers, u1_at, u2_at, u4_at, slice_at};

use byteorder::{BigEndian, ByteOrder};

/// A `u1`, and the bytes after it.
#[tactic(auto, unfolding(crate::specs::Reading::u1_at))]
pub fn u1_at<E: Drop>(missed: E, bytes: &[u8]) -> Result<(u8, &[u8]), E>
    ensures { Answers (λ x. (x.0, x.1.now)) result (u1_at missed bytes.now) }
{
    match bytes {
        [] => Err(missed),
        [byte, rest @ ..] => Ok((*byte, rest)),
    }
}

/// A `u2`, and the bytes after it.
#[tactic(auto, unfolding(crate::specs::Reading::number_at))]
pub fn u2_at<E: Drop>(missed: E, bytes: &[u8]) -> Result<(u16, &[u8]), E>
    ensures { Answers (λ x. (x.0, x.1.now)) result (u2_at missed bytes.now) }
{
    if bytes.len() < 2 {
        return Err(missed);
    }
    Ok((BigEndian::read_u16(bytes), &bytes[2..]))
}

/// A `u4`, and the bytes after it.
#[tactic(auto, unfolding(crate::specs::Reading::number_at))]
pub fn u4_at<E: Drop>(missed: E, bytes: &[u8]) -> Result<(u32, &[u8]), E>
    ensures { Answers (λ x. (x.0, x.1.now)) result (u4_at missed bytes.now) }
{
    if bytes.len() < 4 {
        return Err(missed);
    }
    Ok((BigEndian::read_u32(bytes), &bytes[4..]))
}

/// So many bytes, and those after them.
#[tactic(auto, unfolding(crate::specs::Reading::slice_at))]
pub fn slice_at<E: Drop>(missed: E, size: usize, bytes: &[u8]) -> Result<(&[u8], &[u8]), E>
    ensures { Answers (λ x. (x.0.now, x.1.now)) result (slice_at missed size bytes.now) }
{
    if bytes.len() < size {
        return Err(missed);
    }
    Ok(bytes.split_at(size))
}

/// The bytes of a `u2`.
pub fn u2_bytes(number: u16) -> [u8; 2]
    ensures { result ≡ big_bytes 2 number }
{
    let mut bytes = [0; 2];
    BigEndian::write_u16(&mut bytes, number);
    bytes
}

/// The bytes of a `u4`.
pub fn u4_bytes(number: u32) -> [u8; 4]
    ensures { result ≡ big_bytes 4 number }
{
    let mut bytes = [0; 4];
    BigEndian::write_u32(&mut bytes, number);
    bytes
}

/// The bytes of a `u8`.
pub fn u8_bytes(number: u64) -> [u8; 8]
    ensures { result ≡ big_bytes 8 number }
{
    let mut bytes = [0; 8];
    BigEndian::write_u64(&mut bytes, number);
    bytes
}
