//! What an object consists of.

/// The shape of an object: how its cells are read. A class has so many references and number cells,
/// those of its parents counted.
#[derive(Clone, Copy, Debug, PartialEq, Eq)]
pub enum Shape {
    Object { refs: u16, nums: u16 },
    RefArray,
    ByteArray { boolean: bool },
    HalfArray,
    IntArray,
}
