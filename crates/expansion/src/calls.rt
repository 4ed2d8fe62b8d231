//! Calls, with what makes arguments and results as they are passed.

ghost use Rattle.std.specs.Prelude.{◌≡◌, ◌≤◌, ◌&&◌, [], ◌++◌, length, reverse, OnOk};
ghost use Rattle.std.specs.Option.{option_map_or};
ghost use Rattle.class_pool.specs.declared.descriptor.Kind.{Kind as ParameterKind};
ghost use Rattle.jvm_model.specs.WidthsSlots.{is_small as is_small_kind};
ghost use Rattle.jvm_model.specs.ImageExpansion.{is_two as is_two_cells, cut_arguments as arguments_cut, call as called, call_itself as called_itself, read_as as read_by};
ghost use Rattle.expansion.specs.Expanding.{insns, ids_of, point_of};

use crate::around::{Around, Numbers};
use crate::kinds::{is_small, passed_cells};
use crate::push::{push, push_where};
use crate::shapes::is_two;
use crate::values::read_as;
use body_form::MethodUse;
use class_pool::Kind as DeclaredKind;
use image_instr::{Kind, MInsn};
use std::alloc::AllocError;

/// Whether an argument has two cells, and its parameter one.
fn is_cut(kind: &DeclaredKind, shape: Kind) -> bool
    ensures { result ≡ (is_small_kind kind.now && is_two_cells shape) }
{
    is_small(kind) && is_two(shape)
}

/// Appends what removes the high cell of each argument of a small type that has two, from the last argument to the
/// first. The last argument's shape comes first.
fn cut_arguments(
    params: &[DeclaredKind],
    shapes: &[Kind],
    out: &mut Vec<MInsn>,
) -> Result<(), AllocError>
    requires { length params.now ≤ 255 }
    ensures { OnOk result (out.new.items ≡ out.old.items ++ insns (arguments_cut 0 (reverse params.now) shapes.now)) }
{
    let count = params.len();
    let mut above: u16 = 0;
    for at in 0..count.min(shapes.len()) {
        let kind = &params[count - 1 - at];
        let wanted = is_cut(kind, shapes[at]);
        push_where(wanted, MInsn::Drop { above }, out)?;
        above += passed_cells(kind);
    }
    Ok(())
}

/// Appends what makes the result of a call as wide as it is wanted.
#[tactic(auto, using(crate::proofs::Appended::nothing_more))]
fn read_result(
    returned: &Option<DeclaredKind>,
    shape: Kind,
    out: &mut Vec<MInsn>,
) -> Result<(), AllocError>
    ensures { OnOk result (out.new.items ≡ out.old.items ++ insns (option_map_or (λ (kind : ParameterKind). read_by kind shape) returned.now [])) }
{
    match returned {
        Some(kind) => read_as(kind, shape, out),
        None => Ok(()),
    }
}

/// Appends a call by an instruction.
pub(crate) fn call(
    used: &MethodUse,
    around: &Around,
    insn: MInsn,
    out: &mut Vec<MInsn>,
) -> Result<(), AllocError>
    requires { length used.now.descriptor.params ≤ 255 }
    ensures { OnOk result (out.new.items ≡ out.old.items ++ insns (called used.now (point_of around.now) insn)) }
{
    cut_arguments(
        used.descriptor.params.as_slice(),
        around.before.as_slice(),
        out,
    )?;
    push(insn, out)?;
    read_result(&used.descriptor.result, around.after, out)
}

/// The instruction of a call: a private method is called itself, and another one by its selector.
pub(crate) fn call_itself(used: &MethodUse, numbers: Numbers, by_selector: MInsn) -> MInsn
    ensures { result ≡ called_itself (ids_of numbers) used.now by_selector }
{
    if used.private {
        MInsn::CallX {
            method: numbers.method,
        }
    } else {
        by_selector
    }
}
