//! An image is written part by part.

ghost use Rattle.std.specs.Prelude.{◌≡◌, ◌^◌, ◌<◌, [], ◌++◌, List, length, OnOk, IfOk};
ghost use Rattle.std.specs.List.{flat_map};
ghost use Rattle.image_instr.specs.Insn.{u2};
ghost use Rattle.image_form.specs.declared.record.TypeEntry.{TypeEntry as Entry};
ghost use Rattle.image_form.specs.declared.record.TypeEntry.TheVariants.{Class, RefArray};
ghost use Rattle.image_form.specs.Format.{magic, counted, row_bytes, class_bytes, type_bytes, sig_bytes, handler_bytes, method_bytes, encoding};
ghost use Rattle.image_form.specs.Grammar.{EachAfter, Each, IsClass, IsType, IsMethod, IsImage};

use crate::record::{ClassEntry, DispatchRow, HandlerEntry, Image, Method, TypeEntry};
use byte_read::u2_bytes;
use image_instr::Sig;
use std::alloc::{AllocError, Global};

/// Want of memory.
pub type Memory = AllocError;

/// Appends a number.
fn append_u2(number: u16, out: &mut Vec<u8>) -> Result<(), Memory>
    ensures { OnOk result (out.new.items ≡ out.old.items ++ u2 number) }
{
    let [high, low] = u2_bytes(number);
    out.extend_from_slice(&[high, low])
}

/// Appends a count.
fn append_count(count: usize, out: &mut Vec<u8>) -> Result<(), Memory>
    requires { count < 2 ^ 16 }
    ensures { OnOk result (out.new.items ≡ out.old.items ++ u2 count) }
{
    append_u2(count as u16, out)
}

/// Appends bytes after their length.
fn append_bytes(bytes: &[u8], out: &mut Vec<u8>) -> Result<(), Memory>
    requires { length bytes.now < 2 ^ 16 }
    ensures { OnOk result (out.new.items ≡ out.old.items ++ (u2 (length bytes.now) ++ bytes.now)) }
{
    append_count(bytes.len(), out)?;
    out.extend_from_slice(bytes)
}

/// Appends each of the numbers.
fn append_each_number(numbers: &[u16], out: &mut Vec<u8>) -> Result<(), Memory>
    ensures { OnOk result (out.new.items ≡ out.old.items ++ flat_map u2 numbers.now) }
{
    for number in numbers {
        append_u2(*number, out)?;
    }
    Ok(())
}

/// Appends the numbers after their count.
fn append_numbers(numbers: &[u16], out: &mut Vec<u8>) -> Result<(), Memory>
    requires { length numbers.now < 2 ^ 16 }
    ensures { OnOk result (out.new.items ≡ out.old.items ++ counted u2 numbers.now) }
{
    append_count(numbers.len(), out)?;
    append_each_number(numbers, out)
}

/// Appends a dispatch row.
fn append_row(row: DispatchRow, out: &mut Vec<u8>) -> Result<(), Memory>
    ensures { OnOk result (out.new.items ≡ out.old.items ++ row_bytes row) }
{
    let [a, b] = u2_bytes(row.selector);
    let [c, d] = u2_bytes(row.method);
    out.extend_from_slice(&[a, b, c, d])
}

/// Appends each of the dispatch rows.
fn append_each_row(rows: &[DispatchRow], out: &mut Vec<u8>) -> Result<(), Memory>
    ensures { OnOk result (out.new.items ≡ out.old.items ++ flat_map row_bytes rows.now) }
{
    for row in rows {
        append_row(*row, out)?;
    }
    Ok(())
}

/// Appends the dispatch rows after their count.
fn append_rows(rows: &[DispatchRow], out: &mut Vec<u8>) -> Result<(), Memory>
    requires { length rows.now < 2 ^ 16 }
    ensures { OnOk result (out.new.items ≡ out.old.items ++ counted row_bytes rows.now) }
{
    append_count(rows.len(), out)?;
    append_each_row(rows, out)
}

/// Appends a class with its tag.
fn append_class(class: &ClassEntry, out: &mut Vec<u8>) -> Result<(), Memory>
    requires { (types : List Entry) × IsClass types class.now }
    ensures { OnOk result (out.new.items ≡ out.old.items ++ type_bytes (Class class.now)) }
{
    let [a, b] = u2_bytes(class.parent);
    let [c, d] = u2_bytes(class.refs);
    let [e, f] = u2_bytes(class.nums);
    out.extend_from_slice(&[0, a, b, class.flags, c, d, e, f])?;
    append_numbers(class.interfaces.as_slice(), out)?;
    append_rows(class.rows.as_slice(), out)?;
    append_bytes(class.name.as_slice(), out)
}

/// Appends the array of elements of a type, with its tag.
fn append_ref_array(element: u16, out: &mut Vec<u8>) -> Result<(), Memory>
    ensures { OnOk result (out.new.items ≡ out.old.items ++ type_bytes (RefArray element)) }
{
    let [high, low] = u2_bytes(element);
    out.extend_from_slice(&[1, high, low])
}

/// Appends a type.
fn append_type(entry: &TypeEntry, out: &mut Vec<u8>) -> Result<(), Memory>
    requires { (types : List Entry) × IsType types entry.now }
    ensures { OnOk result (out.new.items ≡ out.old.items ++ type_bytes entry.now) }
{
    match entry {
        TypeEntry::Class(class) => append_class(class, out),
        TypeEntry::RefArray { of } => append_ref_array(*of, out),
        TypeEntry::NumArray { kind } => out.extend_from_slice(&[2, *kind]),
    }
}

/// Appends each of the types.
fn append_each_type(types: &[TypeEntry], out: &mut Vec<u8>) -> Result<(), Memory>
    requires { EachAfter IsType [] types.now }
    ensures { OnOk result (out.new.items ≡ out.old.items ++ flat_map type_bytes types.now) }
{
    for entry in types {
        append_type(entry, out)?;
    }
    Ok(())
}

/// Appends the types after their count.
fn append_types(types: &[TypeEntry], out: &mut Vec<u8>) -> Result<(), Memory>
    requires count { length types.now < 2 ^ 16 }
    requires each { EachAfter IsType [] types.now }
    ensures { OnOk result (out.new.items ≡ out.old.items ++ counted type_bytes types.now) }
{
    append_count(types.len(), out)?;
    append_each_type(types, out)
}

/// Appends a signature.
fn append_signature(sig: Sig, out: &mut Vec<u8>) -> Result<(), Memory>
    ensures { OnOk result (out.new.items ≡ out.old.items ++ sig_bytes sig) }
{
    let [high, low] = u2_bytes(sig.cells);
    out.extend_from_slice(&[sig.refs, high, low, sig.result])
}

/// Appends each of the selectors.
fn append_each_selector(selectors: &[Sig], out: &mut Vec<u8>) -> Result<(), Memory>
    ensures { OnOk result (out.new.items ≡ out.old.items ++ flat_map sig_bytes selectors.now) }
{
    for selector in selectors {
        append_signature(*selector, out)?;
    }
    Ok(())
}

/// Appends the selectors after their count.
fn append_selectors(selectors: &[Sig], out: &mut Vec<u8>) -> Result<(), Memory>
    requires { length selectors.now < 2 ^ 16 }
    ensures { OnOk result (out.new.items ≡ out.old.items ++ counted sig_bytes selectors.now) }
{
    append_count(selectors.len(), out)?;
    append_each_selector(selectors, out)
}

/// Appends a handler.
fn append_handler(handler: HandlerEntry, out: &mut Vec<u8>) -> Result<(), Memory>
    ensures { OnOk result (out.new.items ≡ out.old.items ++ handler_bytes handler) }
{
    let [a, b] = u2_bytes(handler.start);
    let [c, d] = u2_bytes(handler.end);
    let [e, f] = u2_bytes(handler.target);
    let [g, h] = u2_bytes(handler.class);
    out.extend_from_slice(&[a, b, c, d, e, f, g, h])
}

/// Appends each of the handlers.
fn append_each_handler(handlers: &[HandlerEntry], out: &mut Vec<u8>) -> Result<(), Memory>
    ensures { OnOk result (out.new.items ≡ out.old.items ++ flat_map handler_bytes handlers.now) }
{
    for handler in handlers {
        append_handler(*handler, out)?;
    }
    Ok(())
}

/// Appends the handlers after their count.
fn append_handlers(handlers: &[HandlerEntry], out: &mut Vec<u8>) -> Result<(), Memory>
    requires { length handlers.now < 2 ^ 16 }
    ensures { OnOk result (out.new.items ≡ out.old.items ++ counted handler_bytes handlers.now) }
{
    append_count(handlers.len(), out)?;
    append_each_handler(handlers, out)
}

/// Appends the locals and the body of a method's frames.
fn append_frame(method: &Method, out: &mut Vec<u8>) -> Result<(), Memory>
    ensures { OnOk result (out.new.items ≡ out.old.items ++ (u2 method.now.ref_locals ++ (u2 method.now.cell_locals ++ u2 method.now.body))) }
{
    let [a, b] = u2_bytes(method.ref_locals);
    let [c, d] = u2_bytes(method.cell_locals);
    let [e, f] = u2_bytes(method.body);
    out.extend_from_slice(&[a, b, c, d, e, f])
}

/// Appends a method.
fn append_method(method: &Method, out: &mut Vec<u8>) -> Result<(), Memory>
    requires { (types : List Entry) × IsMethod types method.now }
    ensures { OnOk result (out.new.items ≡ out.old.items ++ method_bytes method.now) }
{
    append_signature(method.sig, out)?;
    append_frame(method, out)?;
    append_bytes(method.code.as_slice(), out)?;
    append_handlers(method.handlers.as_slice(), out)
}

/// Appends each of the methods.
fn append_each_method(methods: &[Method], out: &mut Vec<u8>) -> Result<(), Memory>
    requires { (types : List Entry) × Each (IsMethod types) methods.now }
    ensures { OnOk result (out.new.items ≡ out.old.items ++ flat_map method_bytes methods.now) }
{
    for method in methods {
        append_method(method, out)?;
    }
    Ok(())
}

/// Appends the methods after their count.
fn append_methods(methods: &[Method], out: &mut Vec<u8>) -> Result<(), Memory>
    requires count { length methods.now < 2 ^ 16 }
    requires each { (types : List Entry) × Each (IsMethod types) methods.now }
    ensures { OnOk result (out.new.items ≡ out.old.items ++ counted method_bytes methods.now) }
{
    append_count(methods.len(), out)?;
    append_each_method(methods, out)
}

/// Appends the magic and the version.
fn append_header(version: u16, out: &mut Vec<u8>) -> Result<(), Memory>
    ensures { OnOk result (out.new.items ≡ out.old.items ++ (magic ++ u2 version)) }
{
    let [high, low] = u2_bytes(version);
    out.extend_from_slice(&[0x44, 0x4a, 0x49, 0x4e, high, low])
}

/// Appends the statics and main.
fn append_statics(image: &Image, out: &mut Vec<u8>) -> Result<(), Memory>
    requires { length image.now.static_cells < 2 ^ 16 }
    ensures { OnOk result (out.new.items ≡ out.old.items ++ (u2 image.now.static_refs ++ (counted u2 image.now.static_cells ++ u2 image.now.main))) }
{
    append_u2(image.static_refs, out)?;
    append_numbers(image.static_cells.as_slice(), out)?;
    append_u2(image.main, out)
}

/// The bytes of an image of the grammar. `read_image` reads the same image from them.
pub fn write_image(alloc: Global, image: &Image) -> Result<Vec<u8>, Memory>
    requires { IsImage image.now }

    ensures { IfOk result (λ bytes. bytes.items ≡ encoding image.now) }
{
    let mut out = Vec::new(alloc);
    append_header(image.version, &mut out)?;
    append_types(image.types.as_slice(), &mut out)?;
    append_selectors(image.selectors.as_slice(), &mut out)?;
    append_methods(image.methods.as_slice(), &mut out)?;
    append_statics(image, &mut out)?;
    Ok(out)
}
