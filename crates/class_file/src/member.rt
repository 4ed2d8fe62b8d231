//! Fields and methods (JVMS 4.5, 4.6), with the attributes that are read.

ghost use Rattle.std.specs.Prelude.{◌≡◌, [], None};
ghost use Rattle.byte_read.specs.Reading.{steps_at, one_more};
ghost use Rattle.class_file.specs.Reading.{Gives};
ghost use Rattle.class_file.specs.Texts.{AreTexts, AreSeen};
ghost use Rattle.class_file.specs.ReadingMembers.{value_at, field_attribute_at, method_attribute_at, field_attributes_at, method_attributes_at, head_at, field_head_at, method_head_at, field_at, method_at, fields_at, methods_at};

use crate::attribute::{info_at, text_at};
use crate::code::code_at;
use crate::field::u2_at;
use crate::flags::is_abstract;
use crate::head::Head;
use crate::names::is_text;
use crate::record::{CodeAttr, Member};
use crate::refusal::ReadRefusal;
use crate::rules::{is_field_head, is_method_head};
use crate::seen::{Seen, is_declared, note};
use crate::texts::{Texts, is_field_at, shape_at};
use byteorder::{BigEndian, ByteOrder};
use class_pool::Pool;
use item_list::Items;
use std::alloc::Global;
use std::collections::BTreeSet;

/// What follows the name `ConstantValue` (JVMS 4.7.2).
#[tactic(auto, unfolding(crate::specs::ReadingMembers::value_at))]
fn value_at(bytes: &[u8]) -> Result<(u16, &[u8]), ReadRefusal>
    ensures { Gives (λ x. (x.0, x.1.now)) result (value_at bytes.now) }
{
    let (info, rest) = info_at(bytes)?;
    if info.len() != 2 {
        return Err(ReadRefusal::BadShape);
    }
    Ok((BigEndian::read_u16(info), rest))
}

/// An attribute of a field, after others of which one may have been `ConstantValue`.
#[tactic(auto, unfolding(crate::specs::ReadingMembers::field_attribute_at))]
fn field_attribute_at<'a>(
    pool: &Pool,
    found: Option<u16>,
    bytes: &'a [u8],
) -> Result<(Option<u16>, &'a [u8]), ReadRefusal>
    ensures { Gives (λ x. (x.0, x.1.now)) result (field_attribute_at pool.now found bytes.now) }
{
    let (name, rest) = text_at(pool, bytes)?;
    if !is_text(pool, name, b"ConstantValue") {
        let (_, rest) = info_at(rest)?;
        return Ok((found, rest));
    }
    if found.is_some() {
        return Err(ReadRefusal::BadShape);
    }
    let (value, rest) = value_at(rest)?;
    Ok((Some(value), rest))
}

/// So many attributes of a field.
fn field_attributes<'a>(
    pool: &Pool,
    count: u16,
    bytes: &'a [u8],
) -> Result<(Option<u16>, &'a [u8]), ReadRefusal>
    ensures { Gives (λ x. (x.0, x.1.now)) result (steps_at (field_attribute_at pool.now) None count bytes.now) }
{
    let mut found = None;
    let mut rest = bytes;
    for _ in 0..count {
        let (value, after) = field_attribute_at(pool, found, rest)?;
        found = value;
        rest = after;
    }
    Ok((found, rest))
}

/// The attributes of a field: the value of its `ConstantValue`, where there is one.
#[tactic(auto, unfolding(crate::specs::ReadingMembers::field_attributes_at, crate::specs::Reading::counted_at))]
fn field_attributes_at<'a>(
    pool: &Pool,
    bytes: &'a [u8],
) -> Result<(Option<u16>, &'a [u8]), ReadRefusal>
    ensures { Gives (λ x. (x.0, x.1.now)) result (field_attributes_at pool.now bytes.now) }
{
    let (count, rest) = u2_at(bytes)?;
    field_attributes(pool, count, rest)
}

/// An attribute of a method, after others of which one may have been `Code`.
#[tactic(auto, unfolding(crate::specs::ReadingMembers::method_attribute_at))]
fn method_attribute_at<'a>(
    alloc: Global,
    pool: &Pool,
    is_abstract: bool,
    found: Option<CodeAttr>,
    bytes: &'a [u8],
) -> Result<(Option<CodeAttr>, &'a [u8]), ReadRefusal>
    ensures { Gives (λ x. (x.0, x.1.now)) result (method_attribute_at pool.now is_abstract found bytes.now) }
{
    let (name, rest) = text_at(pool, bytes)?;
    if !is_text(pool, name, b"Code") {
        let (_, rest) = info_at(rest)?;
        return Ok((found, rest));
    }
    if is_abstract || found.is_some() {
        return Err(ReadRefusal::BadShape);
    }
    let (code, rest) = code_at(alloc, pool, rest)?;
    Ok((Some(code), rest))
}

/// So many attributes of a method.
fn method_attributes<'a>(
    alloc: Global,
    pool: &Pool,
    is_abstract: bool,
    count: u16,
    bytes: &'a [u8],
) -> Result<(Option<CodeAttr>, &'a [u8]), ReadRefusal>
    ensures { Gives (λ x. (x.0, x.1.now)) result (steps_at (method_attribute_at pool.now is_abstract) None count bytes.now) }
{
    let mut found = None;
    let mut rest = bytes;
    for _ in 0..count {
        let (code, after) = method_attribute_at(alloc, pool, is_abstract, found, rest)?;
        found = code;
        rest = after;
    }
    Ok((found, rest))
}

/// The attributes of a method: its `Code`, which is missing on no method but an abstract one.
#[tactic(auto, unfolding(crate::specs::ReadingMembers::method_attributes_at, crate::specs::Reading::counted_at))]
fn method_attributes_at<'a>(
    alloc: Global,
    pool: &Pool,
    is_abstract: bool,
    bytes: &'a [u8],
) -> Result<(Option<CodeAttr>, &'a [u8]), ReadRefusal>
    ensures { Gives (λ x. (x.0, x.1.now)) result (method_attributes_at pool.now is_abstract bytes.now) }
{
    let (count, rest) = u2_at(bytes)?;
    let (code, rest) = method_attributes(alloc, pool, is_abstract, count, rest)?;
    if !is_abstract && code.is_none() {
        return Err(ReadRefusal::BadShape);
    }
    Ok((code, rest))
}

/// Flags, name and descriptor.
#[tactic(auto, unfolding(crate::specs::ReadingMembers::head_at))]
fn head_at<'a>(pool: &Pool, bytes: &'a [u8]) -> Result<(Head, &'a [u8]), ReadRefusal>
    ensures { Gives (λ x. (x.0, x.1.now)) result (head_at pool.now bytes.now) }
{
    let (flags, rest) = u2_at(bytes)?;
    let (name, rest) = text_at(pool, rest)?;
    let (descriptor, rest) = text_at(pool, rest)?;
    let head = Head {
        flags,
        name,
        descriptor,
    };
    Ok((head, rest))
}

/// Flags, name and descriptor of a field, by the rules.
#[tactic(auto, unfolding(crate::specs::ReadingMembers::field_head_at))]
fn field_head_at<'a>(
    class_flags: u16,
    pool: &Pool,
    texts: &Texts,
    earlier: &[Member],
    seen: &Seen,
    bytes: &'a [u8],
) -> Result<(Head, &'a [u8]), ReadRefusal>
    requires texts { AreTexts pool.now texts.now }
    requires seen { AreSeen pool.now texts.now earlier.now seen.now }
    ensures { Gives (λ x. (x.0, x.1.now)) result (field_head_at class_flags pool.now earlier.now bytes.now) }
{
    let (head, rest) = head_at(pool, bytes)?;
    if !is_field_at(texts, head.descriptor) {
        return Err(ReadRefusal::BadDescriptor {
            index: head.descriptor,
        });
    }
    if !is_field_head(class_flags, head) || is_declared(pool, texts, earlier, seen, head) {
        return Err(ReadRefusal::BadShape);
    }
    Ok((head, rest))
}

/// Flags, name and descriptor of a method, by the rules.
#[tactic(auto, unfolding(crate::specs::ReadingMembers::method_head_at))]
fn method_head_at<'a>(
    class_flags: u16,
    pool: &Pool,
    texts: &Texts,
    earlier: &[Member],
    seen: &Seen,
    bytes: &'a [u8],
) -> Result<(Head, &'a [u8]), ReadRefusal>
    requires texts { AreTexts pool.now texts.now }
    requires seen { AreSeen pool.now texts.now earlier.now seen.now }
    ensures { Gives (λ x. (x.0, x.1.now)) result (method_head_at class_flags pool.now earlier.now bytes.now) }
{
    let (head, rest) = head_at(pool, bytes)?;
    let Some(shape) = shape_at(texts, head.descriptor) else {
        return Err(ReadRefusal::BadDescriptor {
            index: head.descriptor,
        });
    };
    if !is_method_head(class_flags, pool, head, shape)
        || is_declared(pool, texts, earlier, seen, head)
    {
        return Err(ReadRefusal::BadShape);
    }
    Ok((head, rest))
}

/// A field of a class with these flags, after the earlier ones.
#[tactic(auto, unfolding(crate::specs::ReadingMembers::field_at))]
fn field_at<'a>(
    class_flags: u16,
    pool: &Pool,
    texts: &Texts,
    earlier: &[Member],
    seen: &Seen,
    bytes: &'a [u8],
) -> Result<(Member, &'a [u8]), ReadRefusal>
    requires texts { AreTexts pool.now texts.now }
    requires seen { AreSeen pool.now texts.now earlier.now seen.now }
    ensures { Gives (λ x. (x.0, x.1.now)) result (field_at class_flags pool.now earlier.now bytes.now) }
{
    let (head, rest) = field_head_at(class_flags, pool, texts, earlier, seen, bytes)?;
    let (constant, rest) = field_attributes_at(pool, rest)?;
    let field = Member {
        flags: head.flags,
        name: head.name,
        descriptor: head.descriptor,
        constant,
        code: None,
    };
    Ok((field, rest))
}

/// A method of a class with these flags, after the earlier ones.
#[tactic(auto, unfolding(crate::specs::ReadingMembers::method_at))]
fn method_at<'a>(
    alloc: Global,
    class_flags: u16,
    pool: &Pool,
    texts: &Texts,
    earlier: &[Member],
    seen: &Seen,
    bytes: &'a [u8],
) -> Result<(Member, &'a [u8]), ReadRefusal>
    requires texts { AreTexts pool.now texts.now }
    requires seen { AreSeen pool.now texts.now earlier.now seen.now }
    ensures { Gives (λ x. (x.0, x.1.now)) result (method_at class_flags pool.now earlier.now bytes.now) }
{
    let (head, rest) = method_head_at(class_flags, pool, texts, earlier, seen, bytes)?;
    let (code, rest) = method_attributes_at(alloc, pool, is_abstract(head.flags), rest)?;
    let method = Member {
        flags: head.flags,
        name: head.name,
        descriptor: head.descriptor,
        constant: None,
        code,
    };
    Ok((method, rest))
}

/// So many fields.
fn field_list<'a>(
    alloc: Global,
    class_flags: u16,
    pool: &Pool,
    texts: &Texts,
    count: u16,
    bytes: &'a [u8],
) -> Result<(Vec<Member>, &'a [u8]), ReadRefusal>
    requires { AreTexts pool.now texts.now }
    ensures { Gives (λ x. (x.0.items, x.1.now)) result (steps_at (one_more (field_at class_flags pool.now)) [] count bytes.now) }
{
    let mut fields = Vec::new(alloc);
    let mut seen = BTreeSet::new(alloc);
    let mut rest = bytes;
    for _ in 0..count {
        let (field, after) = field_at(class_flags, pool, texts, fields.as_slice(), &seen, rest)?;
        note(texts, &mut seen, &field)?;
        fields.push(field)?;
        rest = after;
    }
    Ok((fields, rest))
}

/// The fields of a class with these flags.
#[tactic(auto, unfolding(crate::specs::ReadingMembers::fields_at, crate::specs::Reading::counted_at))]
pub(crate) fn fields_at<'a>(
    alloc: Global,
    class_flags: u16,
    pool: &Pool,
    texts: &Texts,
    bytes: &'a [u8],
) -> Result<(Items<Member>, &'a [u8]), ReadRefusal>
    requires { AreTexts pool.now texts.now }
    ensures { Gives (λ x. (x.0, x.1.now)) result (fields_at class_flags pool.now bytes.now) }
{
    let (count, rest) = u2_at(bytes)?;
    let (fields, rest) = field_list(alloc, class_flags, pool, texts, count, rest)?;
    Ok((Items::from_vec(fields), rest))
}

/// So many methods.
fn method_list<'a>(
    alloc: Global,
    class_flags: u16,
    pool: &Pool,
    texts: &Texts,
    count: u16,
    bytes: &'a [u8],
) -> Result<(Vec<Member>, &'a [u8]), ReadRefusal>
    requires { AreTexts pool.now texts.now }
    ensures { Gives (λ x. (x.0.items, x.1.now)) result (steps_at (one_more (method_at class_flags pool.now)) [] count bytes.now) }
{
    let mut methods = Vec::new(alloc);
    let mut seen = BTreeSet::new(alloc);
    let mut rest = bytes;
    for _ in 0..count {
        let (method, after) = method_at(
            alloc,
            class_flags,
            pool,
            texts,
            methods.as_slice(),
            &seen,
            rest,
        )?;
        note(texts, &mut seen, &method)?;
        methods.push(method)?;
        rest = after;
    }
    Ok((methods, rest))
}

/// The methods of a class with these flags.
#[tactic(auto, unfolding(crate::specs::ReadingMembers::methods_at, crate::specs::Reading::counted_at))]
pub(crate) fn methods_at<'a>(
    alloc: Global,
    class_flags: u16,
    pool: &Pool,
    texts: &Texts,
    bytes: &'a [u8],
) -> Result<(Items<Member>, &'a [u8]), ReadRefusal>
    requires { AreTexts pool.now texts.now }
    ensures { Gives (λ x. (x.0, x.1.now)) result (methods_at class_flags pool.now bytes.now) }
{
    let (count, rest) = u2_at(bytes)?;
    let (methods, rest) = method_list(alloc, class_flags, pool, texts, count, rest)?;
    Ok((Items::from_vec(methods), rest))
}
