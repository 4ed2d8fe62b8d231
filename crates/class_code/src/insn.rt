use cell_num::{BinOp, Cond, Conv};
use insn_form::{ElementKind, RefCond, StackForm, SwitchForm, SwitchRow, ValueKind};
use item_list::Items;

/// The elements of an array that newarray makes.
#[derive(Clone, Copy, Debug, PartialEq, Eq)]
pub enum ArrayKind {
    Boolean,
    Char,
    Byte,
    Short,
    Int,
}

/// An instruction (JVMS 6.5). Forms that do the same are one: `iload_0`, `iload 0` and `wide iload 0`
/// are `Load(Int, 0)`. A place in the constant pool is an index. A target is a pc; one before the code
/// or past 2^32 - 1 is 2^32 - 1, where no instruction stands.
#[derive(Debug, Drop)]
pub enum Insn {
    Nop,
    /// aconst_null.
    Null,
    /// iconst, bipush, sipush.
    Push(i32),
    /// ldc, ldc_w of the pool entry at an index.
    Ldc(u16),
    /// iload, aload of a local.
    Load(ValueKind, u16),
    /// istore, astore to a local.
    Store(ValueKind, u16),
    /// iinc.
    Inc {
        local: u16,
        amount: i16,
    },
    Stack(StackForm),
    /// iadd to ixor, without ineg.
    Bin(BinOp),
    /// ineg.
    Neg,
    /// i2b, i2c, i2s.
    Convert(Conv),
    /// ifeq to ifle, and the target.
    If(Cond, u32),
    /// if_icmpeq to if_icmple, and the target.
    IfCmp(Cond, u32),
    /// if_acmpeq, if_acmpne, ifnull, ifnonnull, and the target.
    IfRef(RefCond, u32),
    /// goto, goto_w.
    Goto(u32),
    /// tableswitch, lookupswitch. The keys of the rows rise strictly, and those of a table one by one.
    Switch {
        form: SwitchForm,
        default: u32,
        rows: Items<SwitchRow>,
    },
    /// ireturn, areturn, return.
    Return(Option<ValueKind>),
    GetStatic(u16),
    PutStatic(u16),
    GetField(u16),
    PutField(u16),
    /// invokevirtual.
    CallVirtual(u16),
    /// invokespecial.
    CallSpecial(u16),
    /// invokestatic.
    CallStatic(u16),
    /// invokeinterface, with its count of argument places.
    CallInterface {
        method: u16,
        count: u8,
    },
    New(u16),
    /// newarray.
    NewArray(ArrayKind),
    /// anewarray.
    NewRefArray(u16),
    ArrayLength,
    /// iaload, aaload, baload, caload, saload.
    ArrayLoad(ElementKind),
    /// iastore, aastore, bastore, castore, sastore.
    ArrayStore(ElementKind),
    /// athrow.
    Throw,
    CheckCast(u16),
    InstanceOf(u16),
    /// multianewarray, with its count of dimensions.
    MultiArray {
        class: u16,
        dims: u8,
    },
}
