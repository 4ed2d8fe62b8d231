//! The tags of entries (JVMS table 4.4-A).

ghost use Rattle.std.specs.Prelude.{◌≡◌};
ghost use Rattle.class_pool.specs.PoolReading.{tag_of_byte, tag_width, parts_size};

const CONSTANT_UTF8: u8 = 1;

const CONSTANT_INTEGER: u8 = 3;

const CONSTANT_FLOAT: u8 = 4;

const CONSTANT_LONG: u8 = 5;

const CONSTANT_DOUBLE: u8 = 6;

const CONSTANT_CLASS: u8 = 7;

const CONSTANT_STRING: u8 = 8;

const CONSTANT_FIELDREF: u8 = 9;

const CONSTANT_METHODREF: u8 = 10;

const CONSTANT_INTERFACE_METHODREF: u8 = 11;

const CONSTANT_NAME_AND_TYPE: u8 = 12;

const CONSTANT_METHOD_HANDLE: u8 = 15;

const CONSTANT_METHOD_TYPE: u8 = 16;

const CONSTANT_INVOKE_DYNAMIC: u8 = 18;

/// The kind of an entry, as its first byte tells it.
#[derive(Clone, Copy)]
pub(crate) enum Tag {
    Utf8,
    Integer,
    Float,
    Long,
    Double,
    Class,
    String,
    Fieldref,
    Methodref,
    InterfaceMethodref,
    NameAndType,
    MethodHandle,
    MethodType,
    InvokeDynamic,
}

impl Tag {
    /// The tag that a byte stands for, where it is one.
    pub(crate) fn of_byte(byte: u8) -> Option<Tag>
        ensures { result ≡ tag_of_byte byte }
    {
        match byte {
            CONSTANT_UTF8 => Some(Tag::Utf8),
            CONSTANT_INTEGER => Some(Tag::Integer),
            CONSTANT_FLOAT => Some(Tag::Float),
            CONSTANT_LONG => Some(Tag::Long),
            CONSTANT_DOUBLE => Some(Tag::Double),
            CONSTANT_CLASS => Some(Tag::Class),
            CONSTANT_STRING => Some(Tag::String),
            CONSTANT_FIELDREF => Some(Tag::Fieldref),
            CONSTANT_METHODREF => Some(Tag::Methodref),
            CONSTANT_INTERFACE_METHODREF => Some(Tag::InterfaceMethodref),
            CONSTANT_NAME_AND_TYPE => Some(Tag::NameAndType),
            CONSTANT_METHOD_HANDLE => Some(Tag::MethodHandle),
            CONSTANT_METHOD_TYPE => Some(Tag::MethodType),
            CONSTANT_INVOKE_DYNAMIC => Some(Tag::InvokeDynamic),
            _ => None,
        }
    }

    /// How many places of the pool an entry takes (JVMS 4.4.5).
    pub(crate) fn width(self) -> u16
        ensures { result ≡ tag_width self }
    {
        match self {
            Tag::Long | Tag::Double => 2,
            _ => 1,
        }
    }

    /// How many bytes follow the tag; 0 for a text, which has a length of its own.
    pub(crate) fn parts_size(self) -> usize
        ensures { result ≡ parts_size self }
    {
        match self {
            Tag::Utf8 => 0,
            Tag::Class | Tag::String | Tag::MethodType => 2,
            Tag::MethodHandle => 3,
            Tag::Integer | Tag::Float => 4,
            Tag::Fieldref | Tag::Methodref | Tag::InterfaceMethodref => 4,
            Tag::NameAndType | Tag::InvokeDynamic => 4,
            Tag::Long | Tag::Double => 8,
        }
    }
}
