//! The operands at the prefix of the bytes after an opcode.

ghost use Rattle.std.specs.Prelude.{◌≡◌, ◌≤◌, ◌+◌, length, Some, OnSome, IfSome, IsSome};
ghost use Rattle.image_instr.specs.Reading.{u1_in, u2_in, u4_in, i1_in, i2_in, i4_in, index_in, halves_in};

use byteorder::{BigEndian, ByteOrder};

#[inline(always)]
pub(crate) fn u1(operands: &[u8]) -> Option<u8>
    ensures { result ≡ u1_in operands.now }
{
    operands.first().copied()
}

#[inline(always)]
pub(crate) fn u2(operands: &[u8]) -> Option<u16>
    ensures value { result ≡ u2_in operands.now }
    ensures there { OnSome result (2 ≤ length operands.now) }
{
    if operands.len() < 2 {
        return None;
    }
    Some(BigEndian::read_u16(operands))
}

#[inline(always)]
fn u4(operands: &[u8]) -> Option<u32>
    ensures value { result ≡ u4_in operands.now }
    ensures there { OnSome result (4 ≤ length operands.now) }
{
    if operands.len() < 4 {
        return None;
    }
    Some(BigEndian::read_u32(operands))
}

#[inline(always)]
pub(crate) fn i1(operands: &[u8]) -> Option<i8>
    ensures { result ≡ i1_in operands.now }
{
    Some(u1(operands)?.cast_signed())
}

#[inline(always)]
pub(crate) fn i2(operands: &[u8]) -> Option<i16>
    ensures value { result ≡ i2_in operands.now }
{
    Some(u2(operands)?.cast_signed())
}

#[inline(always)]
pub(crate) fn i4(operands: &[u8]) -> Option<i32>
    ensures value { result ≡ i4_in operands.now }
    ensures there { OnSome result (4 ≤ length operands.now) }
{
    Some(u4(operands)?.cast_signed())
}

/// An index, and the size of an instruction that ends with it.
#[inline(always)]
pub(crate) fn index(operands: &[u8]) -> Option<(u16, usize)>
    ensures value { result ≡ index_in operands.now }
    ensures size { IfSome result (λ found. (2 ≤ found.1) × (found.1 ≤ 4)) }
    ensures there { IfSome result (λ found. found.1 ≤ length operands.now + 1) }
{
    let (byte, bytes) = operands.split_first()?;
    if *byte < 255 {
        return Some((u16::from(*byte), 2));
    }
    let long = u2(bytes)?;
    (255 <= long).then_some((long, 4))
}

/// The high and the low half of a byte.
#[inline(always)]
pub(crate) fn halves(operands: &[u8]) -> Option<(u8, u8)>
    ensures { result ≡ halves_in operands.now }
{
    let byte = u1(operands)?;
    Some((byte / 16, byte % 16))
}

/// A number of two bytes that is there.
#[inline(always)]
pub(crate) fn known_u2(operands: &[u8]) -> u16
    requires { IsSome (u2_in operands.now) }
    ensures { u2_in operands.now ≡ Some result }
{
    BigEndian::read_u16(operands)
}

/// An index that is there, and the size of an instruction that ends with it.
#[inline(always)]
pub(crate) fn known_index(operands: &[u8]) -> (u16, usize)
    requires { IsSome (index_in operands.now) }
    ensures value { index_in operands.now ≡ Some result }
    ensures size { (2 ≤ result.1) × (result.1 ≤ 4) }
    ensures there { result.1 ≤ length operands.now + 1 }
{
    let byte = operands[0];
    if byte < 255 {
        (u16::from(byte), 2)
    } else {
        (BigEndian::read_u16(&operands[1..]), 4)
    }
}
