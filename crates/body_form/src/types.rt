use class_pool::TypeRef;
use item_list::Items;

/// What is known of a local or an operand.
#[derive(Clone, Copy, Debug, PartialEq, Eq)]
pub enum VType {
    /// Nothing, or what no instruction may use.
    Top,
    Int,
    Null,
    /// A reference to an object of a type, or null.
    Ref(TypeRef),
    /// An object that the instruction `new` at a pc made, before its constructor was called.
    New(u32),
    /// The object that a constructor is called on, before it has called another constructor.
    This,
}

/// What is known before an instruction: of each local, of each operand, the top first, and whether a constructor
/// has yet to call another one.
#[derive(Debug, Drop)]
pub struct VFrame {
    pub locals: Items<VType>,
    pub stack: Items<VType>,
    pub pending: bool,
}
