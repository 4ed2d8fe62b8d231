//! The families of instructions, with what they name resolved from the class in which they stand (JVMS 6.5).

ghost use Rattle.std.specs.Prelude.{◌≡◌};
ghost use Rattle.class_tree.specs.Set.{IsClass};
ghost use Rattle.jvm_model.specs.Instructions.{element_of as element_of_kind, op_of as op_of_insn};
ghost use Rattle.class_code.specs.declared.insn.Insn.TheVariants as insns;
ghost use Rattle.body_make.specs.Answers.{Tells};

use crate::calls::{Invoke, method_used};
use crate::fault::Fault;
use crate::fields::{FieldAsked, field_used};
use crate::type_test::TypeTest;
use crate::types::type_used;
use body_form::{Literal, Op, UnaryOp};
use class_code::{ArrayKind, Insn};
use class_pool::{Pool, TypeBase, TypeRef};
use class_tree::ClassSet;
use insn_form::{SwitchForm, SwitchRow};
use item_list::Items;
use std::alloc::Global;

/// The elements that newarray is asked for.
fn element_of(kind: ArrayKind) -> TypeBase
    ensures { result ≡ element_of_kind kind }
{
    match kind {
        ArrayKind::Boolean => TypeBase::Boolean,
        ArrayKind::Char => TypeBase::Char,
        ArrayKind::Byte => TypeBase::Byte,
        ArrayKind::Short => TypeBase::Short,
        ArrayKind::Int => TypeBase::Int,
    }
}

/// ldc, ldc_w.
fn ldc(set: &ClassSet, from: u16, pool: &Pool, index: u16) -> Result<Op, Fault>
    ensures { Tells result (op_of_insn set.now from pool.now (insns.Ldc index)) }
{
    match pool.integer(index) {
        Some(number) => Ok(Op::Const(Literal::Int(number))),
        None => Err(Fault::WrongKind),
    }
}

/// tableswitch, lookupswitch.
fn switch(
    alloc: Global,
    set: &ClassSet,
    from: u16,
    pool: &Pool,
    form: SwitchForm,
    default: u32,
    rows: &[SwitchRow],
) -> Result<Op, Fault>
    ensures { Tells result (op_of_insn set.now from pool.now (insns.Switch form default rows.now)) }
{
    let rows = Vec::from_slice(alloc, rows)?;
    Ok(Op::Switch {
        form,
        default,
        rows: Items::from_vec(rows),
    })
}

/// anewarray.
fn new_ref_array(
    alloc: Global,
    set: &ClassSet,
    from: u16,
    pool: &Pool,
    index: u16,
) -> Result<Op, Fault>
    requires { IsClass set.now from }
    ensures { Tells result (op_of_insn set.now from pool.now (insns.NewRefArray index)) }
{
    let of = type_used(alloc, set, from, pool, TypeTest::Element, index)?;
    Ok(Op::NewArray(TypeRef {
        dims: of.dims + 1,
        base: of.base,
    }))
}

/// multianewarray.
fn multi_array(
    alloc: Global,
    set: &ClassSet,
    from: u16,
    pool: &Pool,
    class: u16,
    dims: u8,
) -> Result<Op, Fault>
    requires { IsClass set.now from }
    ensures { Tells result (op_of_insn set.now from pool.now (insns.MultiArray class dims)) }
{
    let array = type_used(alloc, set, from, pool, TypeTest::Counted(dims), class)?;
    Ok(Op::MultiArray { array, dims })
}

/// invokeinterface.
fn call_interface(
    alloc: Global,
    set: &ClassSet,
    from: u16,
    pool: &Pool,
    method: u16,
    count: u8,
) -> Result<Op, Fault>
    requires { IsClass set.now from }
    ensures { Tells result (op_of_insn set.now from pool.now (insns.CallInterface method count)) }
{
    let used = method_used(alloc, set, from, pool, Invoke::Interface(count), method)?;
    Ok(Op::CallInterface(used))
}

/// The family of an instruction in a class with this pool.
pub(crate) fn op_of(
    alloc: Global,
    set: &ClassSet,
    from: u16,
    pool: &Pool,
    insn: &Insn,
) -> Result<Op, Fault>
    requires { IsClass set.now from }
    ensures { Tells result (op_of_insn set.now from pool.now insn.now) }
{
    match insn {
        Insn::Nop => Ok(Op::Nop),
        Insn::Null => Ok(Op::Const(Literal::Null)),
        Insn::Push(number) => Ok(Op::Const(Literal::Int(*number))),
        Insn::Ldc(index) => ldc(set, from, pool, *index),
        Insn::Load(kind, local) => Ok(Op::Load(*kind, *local)),
        Insn::Store(kind, local) => Ok(Op::Store(*kind, *local)),
        Insn::Inc { local, amount } => Ok(Op::Inc {
            local: *local,
            amount: *amount,
        }),
        Insn::Stack(form) => Ok(Op::Stack(*form)),
        Insn::Bin(operation) => Ok(Op::Bin(*operation)),
        Insn::Neg => Ok(Op::Unary(UnaryOp::Neg)),
        Insn::Convert(conv) => Ok(Op::Unary(UnaryOp::Convert(*conv))),
        Insn::If(cond, target) => Ok(Op::If(*cond, *target)),
        Insn::IfCmp(cond, target) => Ok(Op::IfCmp(*cond, *target)),
        Insn::IfRef(cond, target) => Ok(Op::IfRef(*cond, *target)),
        Insn::Goto(target) => Ok(Op::Goto(*target)),
        Insn::Switch {
            form,
            default,
            rows,
        } => switch(alloc, set, from, pool, *form, *default, rows.as_slice()),
        Insn::Return(kind) => Ok(Op::Return(*kind)),
        Insn::GetStatic(index) => {
            let asked = FieldAsked::read(true);
            Ok(Op::GetStatic(field_used(alloc, set, from, pool, asked, *index)?))
        }
        Insn::PutStatic(index) => {
            let asked = FieldAsked::write(true);
            Ok(Op::PutStatic(field_used(alloc, set, from, pool, asked, *index)?))
        }
        Insn::GetField(index) => {
            let asked = FieldAsked::read(false);
            Ok(Op::GetField(field_used(alloc, set, from, pool, asked, *index)?))
        }
        Insn::PutField(index) => {
            let asked = FieldAsked::write(false);
            Ok(Op::PutField(field_used(alloc, set, from, pool, asked, *index)?))
        }
        Insn::CallVirtual(index) => {
            let used = method_used(alloc, set, from, pool, Invoke::Virtual, *index)?;
            Ok(Op::CallVirtual(used))
        }
        Insn::CallSpecial(index) => {
            let used = method_used(alloc, set, from, pool, Invoke::Special, *index)?;
            Ok(Op::CallSpecial(used))
        }
        Insn::CallStatic(index) => {
            let used = method_used(alloc, set, from, pool, Invoke::Static, *index)?;
            Ok(Op::CallStatic(used))
        }
        Insn::CallInterface { method, count } => {
            call_interface(alloc, set, from, pool, *method, *count)
        }
        Insn::New(index) => {
            let made = type_used(alloc, set, from, pool, TypeTest::Made, *index)?;
            Ok(Op::New(made))
        }
        Insn::NewArray(kind) => Ok(Op::NewArray(TypeRef {
            dims: 1,
            base: element_of(*kind),
        })),
        Insn::NewRefArray(index) => new_ref_array(alloc, set, from, pool, *index),
        Insn::ArrayLength => Ok(Op::ArrayLength),
        Insn::ArrayLoad(kind) => Ok(Op::ArrayLoad(*kind)),
        Insn::ArrayStore(kind) => Ok(Op::ArrayStore(*kind)),
        Insn::Throw => Ok(Op::Throw),
        Insn::CheckCast(index) => {
            let named = type_used(alloc, set, from, pool, TypeTest::Any, *index)?;
            Ok(Op::CheckCast(named))
        }
        Insn::InstanceOf(index) => {
            let named = type_used(alloc, set, from, pool, TypeTest::Any, *index)?;
            Ok(Op::InstanceOf(named))
        }
        Insn::MultiArray { class, dims } => multi_array(alloc, set, from, pool, *class, *dims),
    }
}
