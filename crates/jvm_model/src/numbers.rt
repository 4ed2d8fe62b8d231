use class_pool::{MemberId, Text};

/// The name and the descriptor of methods that calls select by.
#[derive(Debug, Drop, PartialEq, Eq, Hash)]
pub struct Selector {
    pub name: Text,
    pub descriptor: Text,
}

/// The fields of an object: how many are references, and how many cells the others take, those of its superclasses
/// counted.
#[derive(Clone, Copy, Debug, PartialEq, Eq)]
pub struct Layout {
    pub refs: u16,
    pub nums: u16,
}

/// A field with its place: among the references or among the cells, of all statics or of its object.
#[derive(Clone, Copy, Debug, PartialEq, Eq)]
pub struct FieldPlace {
    pub member: MemberId,
    pub place: u16,
}
