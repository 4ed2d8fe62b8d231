//! The machine instructions, each with its operands. Both directions name their bytes as
//! specs/Insn.antt does.

/// What a local, a static, a field or a result holds.
#[derive(Clone, Copy, Debug, PartialEq, Eq)]
pub enum Kind {
    /// A reference.
    Ref,
    /// A number of one cell.
    One,
    /// A number of two cells, the low one beneath.
    Two,
}

/// How many cells a number has.
#[derive(Clone, Copy, Debug, PartialEq, Eq)]
pub enum Width {
    One,
    Two,
}

/// An operation on two whole numbers, in the order of the codes 0 to 10.
#[derive(Clone, Copy, Debug, PartialEq, Eq)]
pub enum Operation {
    Add,
    Sub,
    Mul,
    Div,
    Rem,
    Shl,
    Shr,
    Ushr,
    And,
    Or,
    Xor,
}

/// A comparison of two whole numbers, in the order of the codes 0 to 5.
#[derive(Clone, Copy, Debug, PartialEq, Eq)]
pub enum Condition {
    Eq,
    Ne,
    Lt,
    Ge,
    Gt,
    Le,
}

/// A test of two references, or of one.
#[derive(Clone, Copy, Debug, PartialEq, Eq)]
pub enum RefTest {
    Equal,
    NotEqual,
    Null,
    NonNull,
}

/// What the elements of an array are.
#[derive(Clone, Copy, Debug, PartialEq, Eq)]
pub enum Element {
    Ref,
    Byte,
    Half,
    Int,
}

/// A machine instruction with its operands. Targets are places in the code; locals, statics and
/// fields are counted apart for references and cells. The rows of a switch stay in the code.
#[derive(Clone, Copy, Debug, PartialEq, Eq)]
pub enum MInsn {
    /// CONST1: pushes one cell.
    Const1 {
        value: i16,
    },
    /// CONST2: pushes two cells.
    Const2 {
        value: i32,
    },
    /// SMALL1: pushes a byte as one cell.
    Small1 {
        value: i8,
    },
    /// SMALL2: pushes a byte as two cells.
    Small2 {
        value: i8,
    },
    /// MID2: pushes two bytes as two cells.
    Mid2 {
        value: i16,
    },
    /// NULL: pushes the reference 0.
    Null,
    /// RLOAD, LOAD1, LOAD2: pushes a local.
    Load {
        kind: Kind,
        local: u16,
    },
    /// RSTORE, STORE1, STORE2: pops into a local.
    Store {
        kind: Kind,
        local: u16,
    },
    /// RCLEAR: writes 0 to a reference local.
    RClear {
        local: u16,
    },
    /// INC1, INC2: adds to a local.
    Inc {
        width: Width,
        local: u16,
        amount: i16,
    },
    /// RDUPX: `.. J K` becomes `.. K J K`, K has m references, 1 or 2, and J has n, 0 to 2.
    RDupX {
        m: u8,
        n: u8,
    },
    /// DUPX: the same of cells, m is 1 to 4 and n is 0 to 4.
    DupX {
        m: u8,
        n: u8,
    },
    /// RPOP: removes 1 to 4 references.
    RPop {
        count: u8,
    },
    /// POP: removes 1 to 4 cells.
    Pop {
        count: u8,
    },
    /// RSWAP: swaps the two topmost references.
    RSwap,
    /// SWAP: `.. J K` becomes `.. K J`, K has m cells and J has n, each 1 or 2.
    Swap {
        m: u8,
        n: u8,
    },
    /// DROP: removes the cell that has so many cells above it.
    Drop {
        above: u16,
    },
    /// BIN1, BIN2: an operation on two numbers.
    Bin {
        width: Width,
        operation: Operation,
    },
    /// NEG1, NEG2: negates a number.
    Neg {
        width: Width,
    },
    /// SX: one cell to two, by sign.
    Sx,
    /// ZX: one cell to two, by zero.
    Zx,
    /// SB: sign-extends the low byte of a cell.
    Sb,
    /// BIT: keeps the lowest bit of a cell.
    Bit,
    /// JZ1, JZ2: compares a number with 0, and jumps.
    Jz {
        width: Width,
        condition: Condition,
        target: u16,
    },
    /// JCMP1, JCMP2: compares two numbers, and jumps.
    JCmp {
        width: Width,
        condition: Condition,
        target: u16,
    },
    /// RJEQ, RJNE, RJNULL, RJNONNULL: tests references, and jumps.
    RJ {
        test: RefTest,
        target: u16,
    },
    /// GOTO: jumps.
    Goto {
        target: u16,
    },
    /// SWITCH1, SWITCH2: jumps to the row of a number, by rows whose keys rise.
    Switch {
        width: Width,
        default: u16,
        count: u16,
    },
    /// TABLE1, TABLE2: the same by targets for the keys from the low one on, at least one.
    Table {
        width: Width,
        default: u16,
        low: i32,
        count: u16,
    },
    /// RET, RRET, RET1, RET2: returns, with a result or without one.
    Ret {
        result: Option<Kind>,
    },
    /// RGETS, GETS1, GETS2: pushes a static.
    GetS {
        kind: Kind,
        place: u16,
    },
    /// RPUTS, PUTS1, PUTS2: pops into a static.
    PutS {
        kind: Kind,
        place: u16,
    },
    /// RGETF, GETF1, GETF2: pushes a field of an object.
    GetF {
        kind: Kind,
        place: u16,
    },
    /// RPUTF, PUTF1, PUTF2: pops into a field of an object.
    PutF {
        kind: Kind,
        place: u16,
    },
    /// NEWARR1, NEWARR2: makes an array, by the width of the count.
    NewArr {
        width: Width,
        id: u16,
    },
    /// MULTI: makes an array of arrays, by so many counts of two cells each.
    Multi {
        id: u16,
        dims: u8,
    },
    /// ALEN: pushes the length cell of an array.
    ALen,
    /// RALOAD1 to IALOAD2: pushes an element, by the width of the index.
    ALoad {
        element: Element,
        width: Width,
    },
    /// RASTORE1 to IASTORE2: pops into an element, by the width of the index.
    AStore {
        element: Element,
        width: Width,
    },
    /// NEW: makes an object.
    New {
        id: u16,
    },
    /// CAST: tests the type of a reference.
    Cast {
        id: u16,
    },
    /// INST: pushes whether a reference is of a type, as one cell.
    Inst {
        id: u16,
    },
    /// THROW: throws an object.
    Throw,
    /// CALLS: calls a method.
    CallS {
        method: u16,
    },
    /// CALLX: calls a method, and tests the receiver for null.
    CallX {
        method: u16,
    },
    /// CALLV: calls the receiver's method for a selector.
    CallV {
        selector: u16,
    },
    /// CALLI: the same, and the receiver has to be of an interface.
    CallI {
        selector: u16,
        id: u16,
    },
}

/// A row of a switch: where the number is the key, the jump goes to the target.
#[derive(Clone, Copy, Debug, PartialEq, Eq)]
pub struct SwitchRow {
    pub key: i32,
    pub target: u16,
}
