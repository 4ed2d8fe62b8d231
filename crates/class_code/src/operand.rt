//! The operands of an instruction, and the bytes after them.

ghost use Rattle.std.specs.Prelude.{◌≡◌};
ghost use Rattle.class_code.specs.Operands.{Gives, u1_at, u2_at, u4_at, i1_at, i2_at, i4_at, slice_at, target, target_at, far_target_at};

use crate::refusal::Fault;

/// A `u1`.
pub(crate) fn u1_at(bytes: &[u8]) -> Result<(u8, &[u8]), Fault>
    ensures { Gives (λ x. (x.0, x.1.now)) result (u1_at bytes.now) }
{
    byte_read::u1_at(Fault::BadCode, bytes)
}

/// A `u2`.
pub(crate) fn u2_at(bytes: &[u8]) -> Result<(u16, &[u8]), Fault>
    ensures { Gives (λ x. (x.0, x.1.now)) result (u2_at bytes.now) }
{
    byte_read::u2_at(Fault::BadCode, bytes)
}

/// A `u4`.
fn u4_at(bytes: &[u8]) -> Result<(u32, &[u8]), Fault>
    ensures { Gives (λ x. (x.0, x.1.now)) result (u4_at bytes.now) }
{
    byte_read::u4_at(Fault::BadCode, bytes)
}

/// A signed byte.
#[tactic(auto, unfolding(crate::specs::Operands::i1_at))]
pub(crate) fn i1_at(bytes: &[u8]) -> Result<(i8, &[u8]), Fault>
    ensures { Gives (λ x. (x.0, x.1.now)) result (i1_at bytes.now) }
{
    let (byte, rest) = u1_at(bytes)?;
    Ok((byte.cast_signed(), rest))
}

/// A signed number in two bytes.
#[tactic(auto, unfolding(crate::specs::Operands::i2_at))]
pub(crate) fn i2_at(bytes: &[u8]) -> Result<(i16, &[u8]), Fault>
    ensures { Gives (λ x. (x.0, x.1.now)) result (i2_at bytes.now) }
{
    let (number, rest) = u2_at(bytes)?;
    Ok((number.cast_signed(), rest))
}

/// A signed number in four bytes.
#[tactic(auto, unfolding(crate::specs::Operands::i4_at))]
pub(crate) fn i4_at(bytes: &[u8]) -> Result<(i32, &[u8]), Fault>
    ensures { Gives (λ x. (x.0, x.1.now)) result (i4_at bytes.now) }
{
    let (number, rest) = u4_at(bytes)?;
    Ok((number.cast_signed(), rest))
}

/// So many bytes.
pub(crate) fn slice_at(size: usize, bytes: &[u8]) -> Result<(&[u8], &[u8]), Fault>
    ensures { Gives (λ x. (x.0.now, x.1.now)) result (slice_at size bytes.now) }
{
    byte_read::slice_at(Fault::BadCode, size, bytes)
}

/// The pc that an offset from an instruction's pc leads to.
fn target(pc: u32, offset: i32) -> u32
    ensures { result ≡ target pc offset }
{
    let destination = i64::from(pc) + i64::from(offset);
    if destination < 0 || destination > i64::from(u32::MAX) {
        return u32::MAX;
    }
    destination as u32
}

/// The target of an offset in two bytes.
#[tactic(auto, unfolding(crate::specs::Operands::target_at))]
pub(crate) fn target_at(pc: u32, bytes: &[u8]) -> Result<(u32, &[u8]), Fault>
    ensures { Gives (λ x. (x.0, x.1.now)) result (target_at pc bytes.now) }
{
    let (offset, rest) = i2_at(bytes)?;
    Ok((target(pc, i32::from(offset)), rest))
}

/// The target of an offset in four bytes.
#[tactic(auto, unfolding(crate::specs::Operands::far_target_at))]
pub(crate) fn far_target_at(pc: u32, bytes: &[u8]) -> Result<(u32, &[u8]), Fault>
    ensures { Gives (λ x. (x.0, x.1.now)) result (far_target_at pc bytes.now) }
{
    let (offset, rest) = i4_at(bytes)?;
    Ok((target(pc, offset), rest))
}
