/// What an array type is an array of, or a class as such.
#[derive(Clone, Copy, Debug, PartialEq, Eq, Hash)]
pub enum TypeBase {
    /// A class, by its number in a set of classes.
    Class(u16),
    Byte,
    Char,
    Short,
    Int,
    Boolean,
}

/// A class, or an array type with so many dimensions.
#[derive(Clone, Copy, Debug, PartialEq, Eq, Hash)]
pub struct TypeRef {
    pub dims: u8,
    pub base: TypeBase,
}

/// A member of a class: the class by its number in a set of classes, and the member by its place
/// among the fields, or among the methods, of that class.
#[derive(Clone, Copy, Debug, PartialEq, Eq, Hash)]
pub struct MemberId {
    pub class: u16,
    pub member: u16,
}
