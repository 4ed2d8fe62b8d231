//! The class as a whole (JVMS 4.1).

ghost use Rattle.std.specs.Prelude.{◌≡◌, ◌⊎◌, ◌≤◌, [], Ok, Err, IfOk, IfErr, length, take};
ghost use Rattle.std.specs.Str.{bytes_eq};
ghost use Rattle.byte_read.specs.Reading.{Answers};
ghost use Rattle.class_file.specs.Layout.{magic};
ghost use Rattle.class_file.specs.Relation.{IsClassFile};
ghost use Rattle.class_file.specs.Refused.{IsStartRefused, IsRefused};
ghost use Rattle.byte_read.specs.Reading.{steps_at, one_more};
ghost use Rattle.class_file.specs.Reading.{Gives};
ghost use Rattle.class_file.specs.ReadingClass.{capped, version_at, of_pool, after_pool, pool_at, class_flags_at, class_index_at, interfaces_at, class_head_at, members_at, start_of, body_of, class_of};
ghost use Rattle.class_file.specs.declared.record.ClassFile.{ClassFile as Record};
ghost use Rattle.class_file.specs.declared.refusal.ReadRefusal.{ReadRefusal as Refusal};
ghost use Rattle.class_file.specs.declared.refusal.ReadRefusal.TheVariants.{Memory};

use crate::attribute::skip_all_at;
use crate::class::ClassHead;
use crate::field::u2_at;
use crate::flags::are_class_flags;
use crate::member::{fields_at, methods_at};
use crate::names::names_class;
use crate::record::{ClassFile, Member};
use crate::refusal::ReadRefusal;
use crate::texts::texts_of;
use class_pool::{Pool, PoolRefusal, read_pool};
use item_list::Items;
use std::alloc::Global;

/// What a class file begins with (JVMS 4.1).
const MAGIC: &[u8] = b"\xca\xfe\xba\xbe";

/// The first and the last major version that is read: JDK 1.1 to Java 8.
const FIRST_MAJOR: u16 = 45;

const LAST_MAJOR: u16 = 52;

/// How many bytes a class file may have.
const LARGEST: usize = 1_048_576;

/// A length in its field, or the field's greatest number.
fn capped(length: usize) -> u32
    ensures { result ≡ capped length }
{
    length.min(u32::MAX as usize) as u32
}

/// The version, minor and major: 45 to 52.
#[tactic(auto, unfolding(crate::specs::ReadingClass::version_at))]
fn version_at(bytes: &[u8]) -> Result<((u16, u16), &[u8]), ReadRefusal>
    ensures { Answers (λ x. (x.0, x.1.now)) result (version_at bytes.now) }
{
    let (minor, rest) = u2_at(bytes)?;
    let (major, rest) = u2_at(rest)?;
    if major < FIRST_MAJOR || major > LAST_MAJOR {
        return Err(ReadRefusal::Version { major });
    }
    Ok(((minor, major), rest))
}

/// Why a pool is none, as the whole class says it.
fn of_pool(why: PoolRefusal) -> ReadRefusal
    ensures { result ≡ of_pool why }
{
    match why {
        PoolRefusal::Truncated => ReadRefusal::Truncated,
        PoolRefusal::BadTag { index } => ReadRefusal::BadPool { index },
        PoolRefusal::BadIndex { index } => ReadRefusal::BadPool { index },
        PoolRefusal::BadUtf8 { index } => ReadRefusal::BadPool { index },
        PoolRefusal::Memory => ReadRefusal::Memory,
    }
}

/// The pool, and the bytes after its place.
fn after_pool(
    bytes: &[u8],
    read: Result<(Pool, usize), PoolRefusal>,
) -> Result<(Pool, &[u8]), ReadRefusal>
    requires { IfOk read (λ x. x.1 ≤ length bytes.now) }
    ensures { Answers (λ x. (x.0, x.1.now)) result (after_pool bytes.now read) }
{
    match read {
        Ok((pool, suffix)) => Ok((pool, &bytes[suffix..])),
        Err(why) => Err(of_pool(why)),
    }
}

/// The constant pool, with its count.
#[tactic(auto, unfolding(crate::specs::ReadingClass::pool_at))]
fn pool_at(alloc: Global, bytes: &[u8]) -> Result<(Pool, &[u8]), ReadRefusal>
    ensures { Gives (λ x. (x.0, x.1.now)) result (pool_at bytes.now) }
{
    after_pool(bytes, read_pool(alloc, bytes, 0))
}

/// The flags of the class.
#[tactic(auto, unfolding(crate::specs::ReadingClass::class_flags_at))]
fn class_flags_at(bytes: &[u8]) -> Result<(u16, &[u8]), ReadRefusal>
    ensures { Gives (λ x. (x.0, x.1.now)) result (class_flags_at bytes.now) }
{
    let (flags, rest) = u2_at(bytes)?;
    if !are_class_flags(flags) {
        return Err(ReadRefusal::BadShape);
    }
    Ok((flags, rest))
}

/// The index of a class that is no array.
#[tactic(auto, unfolding(crate::specs::ReadingClass::class_index_at))]
fn class_index_at<'a>(pool: &Pool, bytes: &'a [u8]) -> Result<(u16, &'a [u8]), ReadRefusal>
    ensures { Gives (λ x. (x.0, x.1.now)) result (class_index_at pool.now bytes.now) }
{
    let (index, rest) = u2_at(bytes)?;
    if !names_class(pool, index) {
        return Err(ReadRefusal::BadShape);
    }
    Ok((index, rest))
}

/// So many interfaces.
fn interface_list<'a>(
    alloc: Global,
    pool: &Pool,
    count: u16,
    bytes: &'a [u8],
) -> Result<(Vec<u16>, &'a [u8]), ReadRefusal>
    ensures { Gives (λ x. (x.0.items, x.1.now)) result (steps_at (one_more (λ earlier rest. class_index_at pool.now rest)) [] count bytes.now) }
{
    let mut interfaces = Vec::new(alloc);
    let mut rest = bytes;
    for _ in 0..count {
        let (interface, after) = class_index_at(pool, rest)?;
        interfaces.push(interface)?;
        rest = after;
    }
    Ok((interfaces, rest))
}

/// The interfaces.
#[tactic(auto, unfolding(crate::specs::ReadingClass::interfaces_at, crate::specs::Reading::counted_at))]
fn interfaces_at<'a>(
    alloc: Global,
    pool: &Pool,
    bytes: &'a [u8],
) -> Result<(Items<u16>, &'a [u8]), ReadRefusal>
    ensures { Gives (λ x. (x.0, x.1.now)) result (interfaces_at pool.now bytes.now) }
{
    let (count, rest) = u2_at(bytes)?;
    let (interfaces, rest) = interface_list(alloc, pool, count, rest)?;
    Ok((Items::from_vec(interfaces), rest))
}

/// What stands between the pool and the fields.
#[tactic(auto, unfolding(crate::specs::ReadingClass::class_head_at))]
fn class_head_at<'a>(
    alloc: Global,
    pool: &Pool,
    bytes: &'a [u8],
) -> Result<(ClassHead, &'a [u8]), ReadRefusal>
    ensures { Gives (λ x. (x.0, x.1.now)) result (class_head_at pool.now bytes.now) }
{
    let (flags, rest) = class_flags_at(bytes)?;
    let (this_class, rest) = class_index_at(pool, rest)?;
    let (super_class, rest) = class_index_at(pool, rest)?;
    let (interfaces, rest) = interfaces_at(alloc, pool, rest)?;
    let head = ClassHead {
        flags,
        this_class,
        super_class,
        interfaces,
    };
    Ok((head, rest))
}

/// Fields and methods, and the attributes of the class, which are skipped.
#[tactic(auto, unfolding(crate::specs::ReadingClass::members_at))]
fn members_at<'a>(
    alloc: Global,
    class_flags: u16,
    pool: &Pool,
    bytes: &'a [u8],
) -> Result<((Items<Member>, Items<Member>), &'a [u8]), ReadRefusal>
    ensures { Gives (λ x. (x.0, x.1.now)) result (members_at class_flags pool.now bytes.now) }
{
    let texts = texts_of(alloc, pool)?;
    let (fields, rest) = fields_at(alloc, class_flags, pool, &texts, bytes)?;
    let (methods, rest) = methods_at(alloc, class_flags, pool, &texts, rest)?;
    let rest = skip_all_at(pool, rest)?;
    Ok(((fields, methods), rest))
}

/// What follows the magic.
#[tactic(auto, unfolding(crate::specs::ReadingClass::body_of))]
fn body_of(alloc: Global, bytes: &[u8]) -> Result<ClassFile, ReadRefusal>
    ensures value { Gives (λ x. x) result (body_of bytes.now) }
    ensures version { (why : Refusal) → version_at bytes.now ≡ Err why → result ≡ Err why }
{
    let ((minor, major), rest) = version_at(bytes)?;
    let (pool, rest) = pool_at(alloc, rest)?;
    let (head, rest) = class_head_at(alloc, &pool, rest)?;
    let ((fields, methods), rest) = members_at(alloc, head.flags, &pool, rest)?;
    if !rest.is_empty() {
        return Err(ReadRefusal::TrailingBytes {
            count: capped(rest.len()),
        });
    }
    Ok(ClassFile {
        minor,
        major,
        pool,
        flags: head.flags,
        this_class: head.this_class,
        super_class: head.super_class,
        interfaces: head.interfaces,
        fields,
        methods,
    })
}

/// The bytes begin with the magic.
fn has_magic(bytes: &[u8]) -> bool
    ensures { result ≡ bytes_eq (take 4 bytes.now) magic }
{
    bytes.starts_with(MAGIC)
}

/// The record, or the first fault.
#[tactic(auto, unfolding(crate::specs::ReadingClass::class_of, crate::specs::ReadingClass::start_of))]
fn class_of(alloc: Global, bytes: &[u8]) -> Result<ClassFile, ReadRefusal>
    ensures value { Gives (λ x. x) result (class_of bytes.now) }
    ensures start { (why : Refusal) → start_of bytes.now ≡ Err why → result ≡ Err why }
{
    if bytes.len() > LARGEST {
        return Err(ReadRefusal::TooLarge {
            length: capped(bytes.len()),
        });
    }
    if !has_magic(bytes) {
        return Err(ReadRefusal::NotClass);
    }
    body_of(alloc, &bytes[MAGIC.len()..])
}

/// Reads the bytes of a class file (JVMS chapter 4) of version 45 to 52. All bytes belong to the file.
/// Attributes other than `Code` and `ConstantValue` are skipped. A refusal is that of the first place
/// that is wrong, in the order of the bytes.
pub fn read_class(alloc: Global, bytes: &[u8]) -> Result<ClassFile, ReadRefusal>
    // What is read is a class file with this record.
    ensures found { IfOk result (λ file. IsClassFile bytes.now file) }

    // A class file is read, unless memory runs out.
    ensures only { (file : Record) → IsClassFile bytes.now file → Gives (λ x. x) result (Ok file) }

    // Bytes are the class file of at most one record.
    ensures one_record { (first second : Record) → IsClassFile bytes.now first → IsClassFile bytes.now second → first ≡ second }

    // Other bytes are refused for what is wrong first, unless memory runs out.
    ensures refused { IfErr result (λ why. (why ≡ Memory) ⊎ IsRefused bytes.now why) }
    ensures refused_only { (why : Refusal) → IsRefused bytes.now why → Gives (λ x. x) result (Err why) }

    // What the length, the magic and the version are refused for is the refusal at once.
    ensures at_once { (why : Refusal) → IsStartRefused bytes.now why → result ≡ Err why }

    // Which record it is, or which refusal.
    ensures exact { Gives (λ x. x) result (class_of bytes.now) }
{
    class_of(alloc, bytes)
}
