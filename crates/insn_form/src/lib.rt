//! The parts that an instruction of a class file (JVMS 6.5) and its family in a body have in common: kinds of
//! values, forms of stack instructions, comparisons of references, rows of switches, elements of arrays. This
//! crate stands on `std` alone.
#![tactic(auto)]

/// What a local or a result holds: an int or a reference.
#[derive(Clone, Copy, Debug, PartialEq, Eq)]
pub enum ValueKind {
    Int,
    Ref,
}

/// The instructions that move operands (JVMS 6.5, pop to swap).
#[derive(Clone, Copy, Debug, PartialEq, Eq)]
pub enum StackForm {
    Pop,
    Pop2,
    Dup,
    DupX1,
    DupX2,
    Dup2,
    Dup2X1,
    Dup2X2,
    Swap,
}

/// How references are compared: with each other, or with null.
#[derive(Clone, Copy, Debug, PartialEq, Eq)]
pub enum RefCond {
    Eq,
    Ne,
    Null,
    NonNull,
}

/// Which of the two instructions a switch is.
#[derive(Clone, Copy, Debug, PartialEq, Eq)]
pub enum SwitchForm {
    Table,
    Lookup,
}

/// A row of a switch: an int, and the pc to which it leads.
#[derive(Clone, Copy, Debug, PartialEq, Eq)]
pub struct SwitchRow {
    pub key: i32,
    pub target: u32,
}

/// The elements that an instruction reads and writes. Those of baload and bastore are bytes or
/// booleans.
#[derive(Clone, Copy, Debug, PartialEq, Eq)]
pub enum ElementKind {
    Int,
    Ref,
    Byte,
    Char,
    Short,
}
