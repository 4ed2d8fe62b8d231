use cell_num::{BinOp, Cond, Conv};
use class_pool::{Descriptor, Kind, MemberId, Text, TypeRef};
use insn_form::{ElementKind, RefCond, StackForm, SwitchForm, SwitchRow, ValueKind};
use item_list::Items;

/// What a constant instruction pushes.
#[derive(Clone, Copy, Debug, PartialEq, Eq)]
pub enum Literal {
    Int(i32),
    Null,
}

/// What is computed of one int: ineg, or i2b, i2c, i2s.
#[derive(Clone, Copy, Debug, PartialEq, Eq)]
pub enum UnaryOp {
    Neg,
    Convert(Conv),
}

/// A field that an instruction names: the field that its lookup gives, its type, and the class that the
/// instruction names, by its number.
#[derive(Debug, Drop)]
pub struct FieldUse {
    pub field: MemberId,
    pub kind: Kind,
    pub class: u16,
}

/// A method that a call names: the method that its lookup gives, for invokespecial the one that it calls; its
/// name and descriptor; the class or interface that the call names, by its number; and whether the method that
/// the lookup gives is private.
#[derive(Debug, Drop)]
pub struct MethodUse {
    pub method: MemberId,
    pub name: Text,
    pub descriptor: Descriptor,
    pub class: u16,
    pub private: bool,
}

/// The family of an instruction (JVMS 6.5), with what it names resolved. A target is a pc, and a class is a
/// number in a set of classes.
#[derive(Debug, Drop)]
pub enum Op {
    Nop,
    /// aconst_null, iconst, bipush, sipush, ldc, ldc_w.
    Const(Literal),
    /// iload, aload of a local.
    Load(ValueKind, u16),
    /// istore, astore to a local.
    Store(ValueKind, u16),
    /// iinc.
    Inc {
        local: u16,
        amount: i16,
    },
    /// pop to swap.
    Stack(StackForm),
    /// iadd to ixor, without ineg.
    Bin(BinOp),
    /// ineg, i2b, i2c, i2s.
    Unary(UnaryOp),
    /// ifeq to ifle, and the target.
    If(Cond, u32),
    /// if_icmpeq to if_icmple, and the target.
    IfCmp(Cond, u32),
    /// if_acmpeq, if_acmpne, ifnull, ifnonnull, and the target.
    IfRef(RefCond, u32),
    /// goto, goto_w.
    Goto(u32),
    /// tableswitch, lookupswitch: the default target, and the keys with their targets.
    Switch {
        form: SwitchForm,
        default: u32,
        rows: Items<SwitchRow>,
    },
    /// ireturn, areturn, return.
    Return(Option<ValueKind>),
    GetStatic(FieldUse),
    PutStatic(FieldUse),
    GetField(FieldUse),
    PutField(FieldUse),
    /// invokevirtual.
    CallVirtual(MethodUse),
    /// invokespecial.
    CallSpecial(MethodUse),
    /// invokestatic.
    CallStatic(MethodUse),
    /// invokeinterface.
    CallInterface(MethodUse),
    /// new of a class.
    New(TypeRef),
    /// newarray, anewarray, with the type of the array that is made.
    NewArray(TypeRef),
    ArrayLength,
    /// iaload, aaload, baload, caload, saload.
    ArrayLoad(ElementKind),
    /// iastore, aastore, bastore, castore, sastore.
    ArrayStore(ElementKind),
    /// athrow.
    Throw,
    /// checkcast to the named type.
    CheckCast(TypeRef),
    /// instanceof the named type.
    InstanceOf(TypeRef),
    /// multianewarray, with the type of the array that is made, and how many of its dimensions are counted.
    MultiArray {
        array: TypeRef,
        dims: u8,
    },
}
