use class_pool::{Pool, Text};
use item_list::Items;

/// A class file (JVMS 4.1) without the attributes that are skipped: all but `Code` and
/// `ConstantValue`. Names and descriptors are indexes into the pool.
#[derive(Debug, Drop)]
pub struct ClassFile {
    pub minor: u16,
    pub major: u16,
    pub pool: Pool,
    pub flags: u16,
    pub this_class: u16,
    pub super_class: u16,
    pub interfaces: Items<u16>,
    pub fields: Items<Member>,
    pub methods: Items<Member>,
}

/// A field or a method (JVMS 4.5, 4.6).
#[derive(Debug, Drop)]
pub struct Member {
    pub flags: u16,
    pub name: u16,
    pub descriptor: u16,
    /// The index that a `ConstantValue` attribute of a field holds (JVMS 4.7.2).
    pub constant: Option<u16>,
    /// The `Code` attribute of a method (JVMS 4.7.3).
    pub code: Option<CodeAttr>,
}

/// A `Code` attribute (JVMS 4.7.3) without attributes of its own.
#[derive(Debug, Drop)]
pub struct CodeAttr {
    pub max_stack: u16,
    pub max_locals: u16,
    pub code: Text,
    pub handlers: Items<HandlerRow>,
}

/// A row of the exception table (JVMS 4.7.3): `start` to `end`, without `end`, in pcs, the pc of the
/// handler, and the pool index of the class that it catches, or 0 for any.
#[derive(Clone, Copy, Debug, PartialEq, Eq)]
pub struct HandlerRow {
    pub start: u16,
    pub end: u16,
    pub target: u16,
    pub catch_type: u16,
}
