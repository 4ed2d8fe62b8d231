use image_instr::Sig;
use item_list::Items;

/// An infusion as a record. Ids of types and of methods count from 32; those below are the library's.
#[derive(Debug, Drop)]
pub struct Image {
    pub version: u16,
    /// The types, that of id 32 first.
    pub types: Items<TypeEntry>,
    /// The selectors, that of id 0 first.
    pub selectors: Items<Sig>,
    /// The methods with code, that of id 32 first.
    pub methods: Items<Method>,
    /// How many statics are references.
    pub static_refs: u16,
    /// The initial cells of the other statics.
    pub static_cells: Items<u16>,
    /// The method id of main.
    pub main: u16,
}

/// A type: a class or an interface, an array of a type, or an array of whole numbers.
#[derive(Debug, Drop)]
pub enum TypeEntry {
    Class(ClassEntry),
    /// An array of elements of this type id.
    RefArray { of: u16 },
    /// An array of booleans (4), chars (5), bytes (8), shorts (9) or ints (10), the kinds of JVMS table
    /// 6.5.newarray-A.
    NumArray { kind: u8 },
}

/// A class or an interface.
#[derive(Debug, Drop)]
pub struct ClassEntry {
    /// The type id of the superclass.
    pub parent: u16,
    /// 1 for an interface, 2 for an abstract class, 3 for both.
    pub flags: u8,
    /// How many reference fields an object has, those of its superclasses counted.
    pub refs: u16,
    /// How many cells its other fields take, those of its superclasses counted.
    pub nums: u16,
    /// The type ids of the direct superinterfaces.
    pub interfaces: Items<u16>,
    /// The methods that a call by selector finds, by rising selector.
    pub rows: Items<DispatchRow>,
    /// The bytes of the class's name.
    pub name: Items<u8>,
}

/// The method that a class has for a selector.
#[derive(Clone, Copy, Debug, PartialEq, Eq)]
pub struct DispatchRow {
    pub selector: u16,
    pub method: u16,
}

/// A method with code.
#[derive(Debug, Drop)]
pub struct Method {
    pub sig: Sig,
    /// How many locals are references, the arguments counted.
    pub ref_locals: u16,
    /// How many cells the other locals take, the arguments counted.
    pub cell_locals: u16,
    /// How many cells the frame's body has.
    pub body: u16,
    pub code: Items<u8>,
    pub handlers: Items<HandlerEntry>,
}

/// A handler: `start` to `end`, without `end`, and the handler's place, in bytes from the code's start;
/// and the type id of the class that it catches, 65,535 for any.
#[derive(Clone, Copy, Debug, PartialEq, Eq)]
pub struct HandlerEntry {
    pub start: u16,
    pub end: u16,
    pub target: u16,
    pub class: u16,
}
