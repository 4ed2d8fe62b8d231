use class_code::decode;
use class_file::{ClassFile, read_class};
use class_pool::{
    Pool, method_name, name_and_type_in, read_descriptor, read_field_descriptor, read_pool,
};
use row_form::Reader;
use std::alloc::{AllocError, Global};

/// The readers of class files.
pub(crate) struct ClassReader;

impl Reader for ClassReader {
    fn answer(
        &self,
        alloc: Global,
        question: &str,
        bytes: &[u8],
    ) -> Result<Option<String>, AllocError> {
        match question {
            "class" => Ok(Some(class(alloc, bytes)?)),
            "pool" => Ok(Some(pool(alloc, bytes)?)),
            "entry" => Ok(Some(entry(alloc, bytes)?)),
            "record" => Ok(Some(record(alloc, bytes)?)),
            "code" => Ok(Some(code(alloc, bytes)?)),
            "field" => Ok(Some(field(alloc, bytes)?)),
            "method" => Ok(Some(method(alloc, bytes)?)),
            _ => Ok(None),
        }
    }
}

/// Why the bytes are no class file, or that they are one.
fn class(alloc: Global, bytes: &[u8]) -> Result<String, AllocError> {
    match read_class(alloc, bytes) {
        Ok(_) => String::from_str(alloc, "a class"),
        Err(why) => format!(in alloc; "{why:?}"),
    }
}

/// Why the bytes begin with no pool, or its count and its length.
fn pool(alloc: Global, bytes: &[u8]) -> Result<String, AllocError> {
    match read_pool(alloc, bytes, 0) {
        Ok((pool, suffix)) => format!(in alloc; "count {} in {suffix} bytes", pool.count()),
        Err(why) => format!(in alloc; "{why:?}"),
    }
}

/// What the pool that follows two bytes of an index has there: the entry, its text, the name of its class,
/// its whole number, the method that it names, and its name and type.
fn entry(alloc: Global, bytes: &[u8]) -> Result<String, AllocError> {
    let Some((index, rest)) = bytes.split_first_chunk::<2>() else {
        return String::from_str(alloc, "no index");
    };
    match read_pool(alloc, rest, 0) {
        Ok((pool, _)) => found(alloc, &pool, u16::from_be_bytes(*index)),
        Err(why) => format!(in alloc; "{why:?}"),
    }
}

/// What the pool has at the index.
fn found(alloc: Global, pool: &Pool, index: u16) -> Result<String, AllocError> {
    let entry = pool.get(index);
    let text = pool.utf8(index);
    let class = pool.class_name(index);
    let integer = pool.integer(index);
    let method = method_name(pool, index);
    let pair = name_and_type_in(pool, index);
    format!(in alloc; "{entry:?}, {text:?}, {class:?}, {integer:?}, {method:?}, {pair:?}")
}

/// Why the bytes are no class file, or all of its record but the pool.
fn record(alloc: Global, bytes: &[u8]) -> Result<String, AllocError> {
    match read_class(alloc, bytes) {
        Ok(class) => shown(alloc, &class),
        Err(why) => format!(in alloc; "{why:?}"),
    }
}

/// All of the record but the pool.
fn shown(alloc: Global, class: &ClassFile) -> Result<String, AllocError> {
    let numbers = (class.minor, class.major, class.flags);
    let names = (class.this_class, class.super_class);
    let interfaces = class.interfaces.as_slice();
    let fields = class.fields.as_slice();
    let methods = class.methods.as_slice();
    format!(in alloc; "{numbers:?} {names:?} {interfaces:?} {fields:?} {methods:?}")
}

/// Why the bytes are no code, or its instructions.
fn code(alloc: Global, bytes: &[u8]) -> Result<String, AllocError> {
    match decode(alloc, bytes) {
        Ok(list) => format!(in alloc; "{:?}", list.as_slice()),
        Err(why) => format!(in alloc; "{why:?}"),
    }
}

/// Why the bytes are no descriptor of a field, or its type.
fn field(alloc: Global, bytes: &[u8]) -> Result<String, AllocError> {
    match read_field_descriptor(alloc, bytes) {
        Ok(kind) => format!(in alloc; "{kind:?}"),
        Err(why) => format!(in alloc; "{why:?}"),
    }
}

/// Why the bytes are no descriptor of a method, or its types.
fn method(alloc: Global, bytes: &[u8]) -> Result<String, AllocError> {
    match read_descriptor(alloc, bytes) {
        Ok(descriptor) => format!(in alloc; "{descriptor:?}"),
        Err(why) => format!(in alloc; "{why:?}"),
    }
}
