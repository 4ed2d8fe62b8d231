//! An entry of the constant pool (JVMS 4.4) is a tag and the parts after it.

ghost use Rattle.std.specs.Prelude.{◌≡◌, ◌≤◌, length};
ghost use Rattle.byte_read.specs.Reading.{Answers};
ghost use Rattle.class_pool.specs.PoolRefused.{ShowsGood};
ghost use Rattle.class_pool.specs.PoolReading.{size_at, parts_size, text_of, pair_of, entry_of, body_at, tagged_at, tag_of_byte, entry_at};

use crate::pool::{Const, Text};
use crate::refusal::PoolRefusal;
use crate::tag::Tag;
use crate::utf8::is_modified_utf8;
use byte_read::{slice_at, u2_at};
use byteorder::{BigEndian, ByteOrder};
use item_list::Items;
use std::alloc::Global;

/// How many bytes the parts of an entry have, and the bytes after that number.
#[tactic(auto, unfolding(crate::specs::PoolReading::size_at))]
fn size_at(tag: Tag, bytes: &[u8]) -> Result<(usize, &[u8]), PoolRefusal>
    ensures { Answers (λ x. (x.0, x.1.now)) result (size_at tag bytes.now) }
{
    match tag {
        Tag::Utf8 => {
            let (size, rest) = u2_at(PoolRefusal::Truncated, bytes)?;
            Ok((usize::from(size), rest))
        }
        _ => Ok((tag.parts_size(), bytes)),
    }
}

/// The text of these bytes, at an index.
fn text_of(alloc: Global, index: u16, bytes: &[u8]) -> Result<Text, PoolRefusal>
    ensures { ShowsGood (λ text. text) result (text_of index bytes.now) }
{
    if !is_modified_utf8(bytes) {
        return Err(PoolRefusal::BadUtf8 { index });
    }
    Ok(Items::from_vec(Vec::from_slice(alloc, bytes)?))
}

/// The two numbers of two bytes each.
fn pair_of(parts: &[u8]) -> (u16, u16)
    requires { 4 ≤ length parts.now }
    ensures { result ≡ pair_of parts.now }
{
    (BigEndian::read_u16(parts), BigEndian::read_u16(&parts[2..]))
}

/// The entry at an index with this tag and these parts.
#[tactic(auto, unfolding(crate::specs::PoolReading::entry_of))]
fn entry_of(alloc: Global, index: u16, tag: Tag, parts: &[u8]) -> Result<Const, PoolRefusal>
    requires { parts_size tag ≤ length parts.now }
    ensures { ShowsGood (λ entry. entry) result (entry_of index tag parts.now) }
{
    let entry = match tag {
        Tag::Utf8 => Const::Utf8(text_of(alloc, index, parts)?),
        Tag::Integer => Const::Integer(BigEndian::read_u32(parts).cast_signed()),
        Tag::Float => Const::Float(BigEndian::read_u32(parts)),
        Tag::Long => Const::Long(BigEndian::read_u64(parts)),
        Tag::Double => Const::Double(BigEndian::read_u64(parts)),
        Tag::Class => Const::Class(BigEndian::read_u16(parts)),
        Tag::String => Const::String(BigEndian::read_u16(parts)),
        Tag::MethodType => Const::MethodType(BigEndian::read_u16(parts)),
        Tag::MethodHandle => Const::MethodHandle(parts[0], BigEndian::read_u16(&parts[1..])),
        Tag::Fieldref => {
            let (class, name_and_type) = pair_of(parts);
            Const::Field(class, name_and_type)
        }
        Tag::Methodref => {
            let (class, name_and_type) = pair_of(parts);
            Const::Method(class, name_and_type)
        }
        Tag::InterfaceMethodref => {
            let (class, name_and_type) = pair_of(parts);
            Const::InterfaceMethod(class, name_and_type)
        }
        Tag::NameAndType => {
            let (name, descriptor) = pair_of(parts);
            Const::NameAndType(name, descriptor)
        }
        Tag::InvokeDynamic => {
            let (bootstrap, name_and_type) = pair_of(parts);
            Const::InvokeDynamic(bootstrap, name_and_type)
        }
    };
    Ok(entry)
}

/// What follows the tag of the entry at an index.
#[tactic(auto, unfolding(crate::specs::PoolReading::body_at))]
fn body_at(alloc: Global, index: u16, tag: Tag, bytes: &[u8]) -> Result<(Const, &[u8]), PoolRefusal>
    ensures { ShowsGood (λ x. (x.0, x.1.now)) result (body_at index tag bytes.now) }
{
    let (size, rest) = size_at(tag, bytes)?;
    let (parts, rest) = slice_at(PoolRefusal::Truncated, size, rest)?;
    let entry = entry_of(alloc, index, tag, parts)?;
    Ok((entry, rest))
}

/// The entry at an index, with room for so many places up to the count.
#[tactic(auto, unfolding(crate::specs::PoolReading::entry_at))]
pub(crate) fn entry_at(
    alloc: Global,
    index: u16,
    room: u16,
    bytes: &[u8],
) -> Result<(Const, &[u8]), PoolRefusal>
    ensures { ShowsGood (λ x. (x.0, x.1.now)) result (entry_at index room bytes.now) }
{
    match bytes {
        [] => Err(PoolRefusal::Truncated),
        [byte, rest @ ..] => match Tag::of_byte(*byte) {
            Some(tag) if tag.width() <= room => body_at(alloc, index, tag, rest),
            _ => Err(PoolRefusal::BadTag { index }),
        },
    }
}
