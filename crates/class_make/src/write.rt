//! The bytes of a class file (JVMS chapter 4), part by part.

ghost use Rattle.std.specs.Prelude.{◌≡◌, ◌++◌, [], ◌∷◌, true, Some, length, map, codes, IfOk, OnOk};
ghost use Rattle.std.specs.List.{flat_map};
ghost use Rattle.class_pool.specs.Pool.{pool_bytes};
ghost use Rattle.class_file.specs.Layout.{Coded, u2, counted, plain, code_info, attribute_bytes, member_bytes, magic, encoding};
ghost use Rattle.class_file.specs.Relation.{IsClassFile};
ghost use Rattle.class_file.specs.Relation.{IsRecord};
ghost use Rattle.class_make.specs.Entries.{text_index};
ghost use Rattle.class_make.specs.Written.{value_attribute, code_attribute, member_layout, layout_of, fits_code, fits_codes, fits_members, fits};

use crate::bytes::{append_numbers, append_pool, append_rows, append_u2, append_u4};
use crate::entries::{index_of, text_entry};
use class_file::{ClassFile, CodeAttr, Member};
use class_pool::Pool;
use std::alloc::{AllocError, Global};

/// Want of memory.
pub type Memory = AllocError;

/// The indexes of the names of the attributes that are written (JVMS 4.7.2, 4.7.3).
#[derive(Clone, Copy)]
struct Names {
    value: u16,
    code: u16,
}

/// The index of a text; 0 where the pool lacks it.
fn text_index(alloc: Global, pool: &Pool, text: &[u8]) -> Result<u16, Memory>
    ensures { IfOk result (λ index. index ≡ text_index pool.now text.now) }
{
    let entry = text_entry(alloc, text)?;
    Ok(index_of(pool.slots(), &entry).unwrap_or(0))
}

fn names_of(alloc: Global, pool: &Pool) -> Result<Names, Memory>
    ensures value { IfOk result (λ names. names.value ≡ text_index pool.now (codes "ConstantValue")) }
    ensures code { IfOk result (λ names. names.code ≡ text_index pool.now (codes "Code")) }
{
    let value = text_index(alloc, pool, b"ConstantValue")?;
    let code = text_index(alloc, pool, b"Code")?;
    Ok(Names { value, code })
}

/// Appends what a `Code` attribute holds (JVMS 4.7.3), without attributes of its own.
fn append_code_info(out: &mut Vec<u8>, code: &CodeAttr) -> Result<(), Memory>
    requires { fits_code (Some code.now) ≡ true }
    ensures { OnOk result (out.new.items ≡ out.old.items ++ code_info code.now []) }
{
    append_u2(out, code.max_stack)?;
    append_u2(out, code.max_locals)?;
    append_u4(out, code.code.len() as u32)?;
    out.extend_from_slice(code.code.as_slice())?;
    append_u2(out, code.handlers.len() as u16)?;
    append_rows(out, code.handlers.as_slice())?;
    append_u2(out, 0)
}

/// How many bytes a `Code` attribute holds.
fn code_size(code: &CodeAttr) -> u32
    requires { fits_code (Some code.now) ≡ true }
    ensures { result ≡ length (code_info code.now []) }
{
    12 + code.code.len() as u32 + 8 * code.handlers.len() as u32
}

/// Appends the `Code` attribute, where there is code.
fn append_code(out: &mut Vec<u8>, name: u16, code: &Option<CodeAttr>) -> Result<(), Memory>
    requires { fits_code code.now ≡ true }
    ensures { OnOk result (out.new.items ≡ out.old.items ++ flat_map (λ a. attribute_bytes (plain a)) (code_attribute name code.now)) }
{
    let Some(code) = code else {
        return Ok(());
    };
    append_u2(out, name)?;
    append_u4(out, code_size(code))?;
    append_code_info(out, code)
}

/// Appends the `ConstantValue` attribute (JVMS 4.7.2), where there is a value.
fn append_value(out: &mut Vec<u8>, name: u16, value: Option<u16>) -> Result<(), Memory>
    ensures { OnOk result (out.new.items ≡ out.old.items ++ flat_map (λ a. attribute_bytes (plain a)) (value_attribute name value)) }
{
    let Some(value) = value else {
        return Ok(());
    };
    append_u2(out, name)?;
    append_u4(out, 2)?;
    append_u2(out, value)
}

/// How many attributes a member has.
fn attribute_count(names: Names, member: &Member) -> u16
    ensures { result ≡ length (value_attribute names.value member.now.constant ++ code_attribute names.code member.now.code) }
{
    let _ = names;
    u16::from(member.constant.is_some()) + u16::from(member.code.is_some())
}

/// Appends a field or a method (JVMS 4.5, 4.6).
fn append_member(out: &mut Vec<u8>, names: Names, member: &Member) -> Result<(), Memory>
    requires { fits_code member.now.code ≡ true }
    ensures { OnOk result (out.new.items ≡ out.old.items ++ member_bytes (member_layout names.value names.code member.now)) }
{
    append_u2(out, member.flags)?;
    append_u2(out, member.name)?;
    append_u2(out, member.descriptor)?;
    append_u2(out, attribute_count(names, member))?;
    append_value(out, names.value, member.constant)?;
    append_code(out, names.code, &member.code)
}

fn append_each(out: &mut Vec<u8>, names: Names, members: &[Member]) -> Result<(), Memory>
    requires { fits_codes members.now ≡ true }
    ensures { OnOk result (out.new.items ≡ out.old.items ++ flat_map (λ m. member_bytes (member_layout names.value names.code m)) members.now) }
{
    for member in members {
        append_member(out, names, member)?;
    }
    Ok(())
}

/// Appends fields or methods with their count (JVMS 4.1).
fn append_members(out: &mut Vec<u8>, names: Names, members: &[Member]) -> Result<(), Memory>
    requires { fits_members members.now ≡ true }
    ensures { OnOk result (out.new.items ≡ out.old.items ++ counted member_bytes (map (member_layout names.value names.code) members.now)) }
{
    append_u2(out, members.len() as u16)?;
    append_each(out, names, members)
}

/// Appends what stands before the flags of the class (JVMS 4.1).
fn append_prefix(out: &mut Vec<u8>, file: &ClassFile) -> Result<(), Memory>
    requires { fits file.now ≡ true }
    ensures { OnOk result (out.new.items ≡ out.old.items ++ (magic ++ (u2 file.now.minor ++ (u2 file.now.major ++ pool_bytes file.now.pool)))) }
{
    out.extend_from_slice(b"\xca\xfe\xba\xbe")?;
    append_u2(out, file.minor)?;
    append_u2(out, file.major)?;
    append_pool(out, &file.pool)
}

/// Appends what stands between the pool and the fields (JVMS 4.1).
fn append_head(out: &mut Vec<u8>, file: &ClassFile) -> Result<(), Memory>
    requires { fits file.now ≡ true }
    ensures { OnOk result (out.new.items ≡ out.old.items ++ (u2 file.now.flags ++ (u2 file.now.this_class ++ (u2 file.now.super_class ++ counted u2 file.now.interfaces)))) }
{
    append_u2(out, file.flags)?;
    append_u2(out, file.this_class)?;
    append_u2(out, file.super_class)?;
    append_u2(out, file.interfaces.len() as u16)?;
    append_numbers(out, file.interfaces.as_slice())
}

/// The bytes of a record whose lengths and counts fit.
pub(crate) fn write_fitting(alloc: Global, file: &ClassFile) -> Result<Vec<u8>, Memory>
    requires { fits file.now ≡ true }
    ensures { IfOk result (λ bytes. bytes.items ≡ encoding (layout_of file.now)) }
{
    let names = names_of(alloc, &file.pool)?;
    let mut out = Vec::new(alloc);
    append_prefix(&mut out, file)?;
    append_head(&mut out, file)?;
    append_members(&mut out, names, file.fields.as_slice())?;
    append_members(&mut out, names, file.methods.as_slice())?;
    append_u2(&mut out, 0)?;
    Ok(out)
}

/// Writes the class file of a record that some bytes have (JVMS chapter 4). Attributes that are
/// skipped at reading are not written.
pub fn write_class(alloc: Global, file: &ClassFile) -> Result<Vec<u8>, Memory>
    requires { IsRecord file.now }

    // What is written is a class file with this record.
    ensures found { IfOk result (λ bytes. IsClassFile bytes.items file.now) }

    // Which bytes they are.
    ensures exact { IfOk result (λ bytes. bytes.items ≡ encoding (layout_of file.now)) }
{
    write_fitting(alloc, file)
}
