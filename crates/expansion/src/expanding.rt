//! The expansion of one instruction.

ghost use Rattle.std.specs.Prelude.{◌≡◌, true, ◌++◌, OnOk};
ghost use Rattle.jvm_model.specs.ImageExpansion.{alone, extend as extended, read_as as read_by, write_as as written_by};
ghost use Rattle.expansion.specs.Expanding.{insns, element_loaded, element_stored, expansion_of, KeepsCounts};

use crate::around::{Around, Numbers};
use crate::arrays::{element_of, is_small_element, read_element};
use crate::calls::{call, call_itself};
use crate::constants::constant;
use crate::kinds::kind_in;
use crate::locals::{load, store};
use crate::parts::{condition_of, operation_of, switch_insn, test_of};
use crate::push::push;
use crate::shapes::{second_of, top_of, width_of};
use crate::stack::restack;
use crate::values::{cut_to_one, extend, read_as, returning, unary, write_as};
use body_form::Op;
use class_pool::Kind as DeclaredKind;
use image_instr::{Kind, MInsn};
use insn_form::ElementKind;
use std::alloc::AllocError;

/// Appends the read of a field or a static of a type, as wide as it is wanted.
#[tactic(auto, using(crate::proofs::Appended::both))]
fn read_field(
    insn: MInsn,
    kind: &DeclaredKind,
    shape: Kind,
    out: &mut Vec<MInsn>,
) -> Result<(), AllocError>
    ensures { OnOk result (out.new.items ≡ out.old.items ++ insns (alone insn ++ read_by kind.now shape)) }
{
    push(insn, out)?;
    read_as(kind, shape, out)
}

/// Appends the write of a field or a static of a type.
#[tactic(auto, using(crate::proofs::Appended::both))]
fn write_field(
    insn: MInsn,
    kind: &DeclaredKind,
    shape: Kind,
    out: &mut Vec<MInsn>,
) -> Result<(), AllocError>
    ensures { OnOk result (out.new.items ≡ out.old.items ++ insns (written_by kind.now shape ++ alone insn)) }
{
    write_as(kind, shape, out)?;
    push(insn, out)
}

/// Appends an instruction that pushes a cell, as wide as it is wanted: by zero.
#[tactic(auto, using(crate::proofs::Appended::both))]
fn read_unsigned(insn: MInsn, shape: Kind, out: &mut Vec<MInsn>) -> Result<(), AllocError>
    ensures { OnOk result (out.new.items ≡ out.old.items ++ insns (alone insn ++ extended true shape)) }
{
    push(insn, out)?;
    extend(true, shape, out)
}

/// Appends the read of an element.
#[tactic(auto, using(crate::proofs::Appended::both))]
fn load_element(kind: ElementKind, around: &Around, out: &mut Vec<MInsn>) -> Result<(), AllocError>
    ensures { OnOk result (out.new.items ≡ out.old.items ++ element_loaded around.now kind) }
{
    push(
        MInsn::ALoad {
            element: element_of(kind),
            width: width_of(top_of(around.before.as_slice())),
        },
        out,
    )?;
    read_element(kind, around.boolean, around.after, out)
}

/// Appends the write of an element.
#[tactic(auto, using(crate::proofs::Appended::both))]
fn store_element(kind: ElementKind, around: &Around, out: &mut Vec<MInsn>) -> Result<(), AllocError>
    ensures { OnOk result (out.new.items ≡ out.old.items ++ element_stored around.now kind) }
{
    let before = around.before.as_slice();
    cut_to_one(is_small_element(kind), top_of(before), out)?;
    push(
        MInsn::AStore {
            element: element_of(kind),
            width: width_of(second_of(before)),
        },
        out,
    )
}

/// Appends the machine instructions of an instruction in a method with this result. Where there is no memory, some of
/// them may have been appended.
pub fn expand(
    around: &Around,
    numbers: Numbers,
    returned: &Option<DeclaredKind>,
    op: &Op,
    out: &mut Vec<MInsn>,
) -> Result<(), AllocError>
    requires { KeepsCounts op.now }
    ensures { OnOk result (out.new.items ≡ out.old.items ++ expansion_of around.now numbers returned.now op.now) }
{
    let before = around.before.as_slice();
    let top = top_of(before);
    let after = around.after;
    let width = width_of(top);
    let Numbers {
        cell,
        width: local_width,
        place,
        type_id: id,
        method,
        selector,
        target,
        ..
    } = numbers;
    match op {
        Op::Nop => Ok(()),
        Op::Const(value) => push(constant(*value, after), out),
        Op::Load(kind, local) => push(load(numbers, *kind, *local), out),
        Op::Store(kind, local) => store(numbers, *kind, *local, out),
        Op::Inc { amount, .. } => push(
            MInsn::Inc {
                width: local_width,
                local: cell,
                amount: *amount,
            },
            out,
        ),
        Op::Stack(form) => restack(*form, before, out),
        Op::Bin(operation) => push(
            MInsn::Bin {
                width,
                operation: operation_of(*operation),
            },
            out,
        ),
        Op::Unary(operation) => unary(*operation, top, after, out),
        Op::If(cond, _) => push(
            MInsn::Jz {
                width,
                condition: condition_of(*cond),
                target,
            },
            out,
        ),
        Op::IfCmp(cond, _) => push(
            MInsn::JCmp {
                width,
                condition: condition_of(*cond),
                target,
            },
            out,
        ),
        Op::IfRef(cond, _) => push(
            MInsn::RJ {
                test: test_of(*cond),
                target,
            },
            out,
        ),
        Op::Goto(_) => push(MInsn::Goto { target }, out),
        Op::Switch { form, rows, .. } => {
            push(switch_insn(*form, width, target, rows.as_slice()), out)
        }
        Op::Return(value) => returning(returned, top, *value, out),
        Op::GetStatic(used) => {
            let kind = kind_in(&used.kind);
            read_field(MInsn::GetS { kind, place }, &used.kind, after, out)
        }
        Op::PutStatic(used) => {
            let kind = kind_in(&used.kind);
            write_field(MInsn::PutS { kind, place }, &used.kind, top, out)
        }
        Op::GetField(used) => {
            let kind = kind_in(&used.kind);
            read_field(MInsn::GetF { kind, place }, &used.kind, after, out)
        }
        Op::PutField(used) => {
            let kind = kind_in(&used.kind);
            write_field(MInsn::PutF { kind, place }, &used.kind, top, out)
        }
        Op::CallVirtual(used) => {
            let insn = call_itself(used, numbers, MInsn::CallV { selector });
            call(used, around, insn, out)
        }
        Op::CallSpecial(used) => call(used, around, MInsn::CallX { method }, out),
        Op::CallStatic(used) => call(used, around, MInsn::CallS { method }, out),
        Op::CallInterface(used) => {
            let insn = call_itself(used, numbers, MInsn::CallI { selector, id });
            call(used, around, insn, out)
        }
        Op::New(_) => push(MInsn::New { id }, out),
        Op::NewArray(_) => push(MInsn::NewArr { width, id }, out),
        Op::ArrayLength => read_unsigned(MInsn::ALen, after, out),
        Op::ArrayLoad(kind) => load_element(*kind, around, out),
        Op::ArrayStore(kind) => store_element(*kind, around, out),
        Op::Throw => push(MInsn::Throw, out),
        Op::CheckCast(_) => push(MInsn::Cast { id }, out),
        Op::InstanceOf(_) => read_unsigned(MInsn::Inst { id }, after, out),
        Op::MultiArray { dims, .. } => push(MInsn::Multi { id, dims: *dims }, out),
    }
}
