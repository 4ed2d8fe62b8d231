//! The bytes of numbers, entries and rows (JVMS 4.1, 4.4, 4.7.3) are appended to others.

ghost use Rattle.std.specs.Prelude.{◌≡◌, ◌+◌, ◌∷◌, ◌++◌, true, OnOk, IfOk};
ghost use Rattle.std.specs.List.{flat_map};
ghost use Rattle.class_pool.specs.Pool.{entry_bytes, slot_bytes, pool_bytes};
ghost use Rattle.class_file.specs.Layout.{u2, u4, handler_bytes};
ghost use Rattle.class_make.specs.Written.{fits_text, fits_slot, fits_slots};

use byte_read::{u2_bytes, u4_bytes, u8_bytes};
use class_file::HandlerRow;
use class_pool::{Const, Pool};
use std::alloc::AllocError;

/// Appends a number in two bytes.
pub(crate) fn append_u2(out: &mut Vec<u8>, number: u16) -> Result<(), AllocError>
    ensures { OnOk result (out.new.items ≡ out.old.items ++ u2 number) }
{
    out.extend_from_slice(&u2_bytes(number))
}

/// Appends a number in four bytes.
pub(crate) fn append_u4(out: &mut Vec<u8>, number: u32) -> Result<(), AllocError>
    ensures { OnOk result (out.new.items ≡ out.old.items ++ u4 number) }
{
    out.extend_from_slice(&u4_bytes(number))
}

/// Appends a tag and the parts after it.
fn append_tagged(out: &mut Vec<u8>, tag: u8, parts: &[u8]) -> Result<(), AllocError>
    ensures { OnOk result (out.new.items ≡ out.old.items ++ tag ∷ parts.now) }
{
    out.push(tag)?;
    out.extend_from_slice(parts)
}

/// Two numbers in two bytes each.
fn pair_bytes(first: u16, second: u16) -> [u8; 4]
    ensures { result ≡ u2 first ++ u2 second }
{
    let [a, b] = u2_bytes(first);
    let [c, d] = u2_bytes(second);
    [a, b, c, d]
}

/// Appends an entry of the constant pool (JVMS 4.4).
fn append_entry(out: &mut Vec<u8>, entry: &Const) -> Result<(), AllocError>
    requires { fits_text entry.now ≡ true }
    ensures { OnOk result (out.new.items ≡ out.old.items ++ entry_bytes entry.now) }
{
    match entry {
        Const::Utf8(text) => {
            append_tagged(out, 1, &u2_bytes(text.len() as u16))?;
            out.extend_from_slice(text.as_slice())
        }
        Const::Integer(value) => append_tagged(out, 3, &u4_bytes(value.cast_unsigned())),
        Const::Float(bits) => append_tagged(out, 4, &u4_bytes(*bits)),
        Const::Long(bits) => append_tagged(out, 5, &u8_bytes(*bits)),
        Const::Double(bits) => append_tagged(out, 6, &u8_bytes(*bits)),
        Const::Class(name) => append_tagged(out, 7, &u2_bytes(*name)),
        Const::String(text) => append_tagged(out, 8, &u2_bytes(*text)),
        Const::Field(class, member) => append_tagged(out, 9, &pair_bytes(*class, *member)),
        Const::Method(class, member) => append_tagged(out, 10, &pair_bytes(*class, *member)),
        Const::InterfaceMethod(class, member) => {
            append_tagged(out, 11, &pair_bytes(*class, *member))
        }
        Const::NameAndType(name, descriptor) => {
            append_tagged(out, 12, &pair_bytes(*name, *descriptor))
        }
        Const::MethodHandle(kind, index) => {
            let [a, b] = u2_bytes(*index);
            append_tagged(out, 15, &[*kind, a, b])
        }
        Const::MethodType(descriptor) => append_tagged(out, 16, &u2_bytes(*descriptor)),
        Const::InvokeDynamic(bootstrap, member) => {
            append_tagged(out, 18, &pair_bytes(*bootstrap, *member))
        }
    }
}

/// Appends a place of the constant pool; one without an entry has no bytes.
fn append_slot(out: &mut Vec<u8>, slot: &Option<Const>) -> Result<(), AllocError>
    requires { fits_slot slot.now ≡ true }
    ensures { OnOk result (out.new.items ≡ out.old.items ++ slot_bytes slot.now) }
{
    match slot {
        Some(entry) => append_entry(out, entry),
        None => Ok(()),
    }
}

fn append_slots(out: &mut Vec<u8>, slots: &[Option<Const>]) -> Result<(), AllocError>
    requires { fits_slots slots.now ≡ true }
    ensures { OnOk result (out.new.items ≡ out.old.items ++ flat_map slot_bytes slots.now) }
{
    for slot in slots {
        append_slot(out, slot)?;
    }
    Ok(())
}

/// Appends a constant pool with its count (JVMS 4.1).
pub(crate) fn append_pool(out: &mut Vec<u8>, pool: &Pool) -> Result<(), AllocError>
    requires { fits_slots pool.now ≡ true }
    ensures { OnOk result (out.new.items ≡ out.old.items ++ pool_bytes pool.now) }
{
    append_u2(out, pool.count())?;
    append_slots(out, pool.slots())
}

/// Appends numbers in two bytes each.
pub(crate) fn append_numbers(out: &mut Vec<u8>, numbers: &[u16]) -> Result<(), AllocError>
    ensures { OnOk result (out.new.items ≡ out.old.items ++ flat_map u2 numbers.now) }
{
    for number in numbers {
        append_u2(out, *number)?;
    }
    Ok(())
}

/// Appends a row of an exception table (JVMS 4.7.3).
fn append_row(out: &mut Vec<u8>, row: HandlerRow) -> Result<(), AllocError>
    ensures { OnOk result (out.new.items ≡ out.old.items ++ handler_bytes row) }
{
    append_u2(out, row.start)?;
    append_u2(out, row.end)?;
    append_u2(out, row.target)?;
    append_u2(out, row.catch_type)
}

pub(crate) fn append_rows(out: &mut Vec<u8>, rows: &[HandlerRow]) -> Result<(), AllocError>
    ensures { OnOk result (out.new.items ≡ out.old.items ++ flat_map handler_bytes rows.now) }
{
    for row in rows {
        append_row(out, *row)?;
    }
    Ok(())
}
