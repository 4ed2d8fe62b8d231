//! The numbers of what instructions name.

ghost use Rattle.std.specs.Prelude.{◌≡◌, ℕ, ◌<◌, ◌^◌, IfOk};
ghost use Rattle.class_pool.specs.declared.types.TypeBase.TheVariants as base;
ghost use Rattle.jvm_model.specs.ImageEmission.{locals_by};
ghost use Rattle.jvm_model.specs.ImageNumbering.{ids_of};
ghost use Rattle.jvm_model.specs.NumberedIds.{numbers_of as numbers_in};
ghost use Rattle.expansion.specs.Seen.{AreNumbers, AreCalled};
ghost use Rattle.infuse_emit.specs.Parts.{source_in, AreParts, FitIds};
ghost use Rattle.infuse_emit.specs.Offsets.{offset_in};

use crate::offsets::offset_at;
use crate::parts::Parts;
use body_form::{MethodUse, Op};
use class_pool::{TypeBase, TypeRef};
use expansion::Numbers;
use image_instr::Width;
use infuse_ids::selector_number;
use jvm_model::Ids;
use std::alloc::{AllocError, Global};

/// The numbers of an instruction that names nothing.
const NOTHING: Numbers = Numbers {
    slot: None,
    cell: 0,
    width: Width::Two,
    place: 0,
    type_id: 0,
    method: 0,
    selector: 0,
    target: 0,
};

/// The slot of a local among the references, where it has one.
fn slot_of(parts: &Parts<'_>, local: u16) -> Option<u16>
    ensures { result ≡ (locals_by parts.now.plan.now (source_in parts.now).widths).slot local }
{
    match parts.plan.refs.as_slice().get(usize::from(local)) {
        Some(slot) => *slot,
        None => None,
    }
}

/// The first cell of a local.
fn cell_of(parts: &Parts<'_>, local: u16) -> u16
    ensures { result ≡ (locals_by parts.now.plan.now (source_in parts.now).widths).cell local }
{
    match parts.plan.cells.as_slice().get(usize::from(local)) {
        Some(Some(cell)) => *cell,
        _ => 0,
    }
}

/// The width of a local.
fn width_of(parts: &Parts<'_>, local: u16) -> Width
    requires { AreParts parts.now }
    ensures { result ≡ (locals_by parts.now.plan.now (source_in parts.now).widths).width local }
{
    match parts.widths.get(usize::from(local)) {
        Some(width) => *width,
        None => Width::Two,
    }
}

/// The numbers of an instruction on a local.
fn local_numbers(parts: &Parts<'_>, local: u16) -> Numbers
    requires { AreParts parts.now }
    ensures slot { result.slot ≡ (locals_by parts.now.plan.now (source_in parts.now).widths).slot local }
    ensures cell { result.cell ≡ (locals_by parts.now.plan.now (source_in parts.now).widths).cell local }
    ensures width { result.width ≡ (locals_by parts.now.plan.now (source_in parts.now).widths).width local }
{
    Numbers {
        slot: slot_of(parts, local),
        cell: cell_of(parts, local),
        width: width_of(parts, local),
        ..NOTHING
    }
}

/// The numbers of an instruction that jumps to this offset.
fn jump_numbers(target: u16) -> Numbers
    ensures { result.target ≡ target }
{
    Numbers { target, ..NOTHING }
}

/// The numbers of an instruction on a field or a static with this place.
fn place_numbers(place: u16) -> Numbers
    ensures { result.place ≡ place }
{
    Numbers { place, ..NOTHING }
}

/// The numbers of an instruction that names a type with this id.
fn type_numbers(type_id: u16) -> Numbers
    ensures { result.type_id ≡ type_id }
{
    Numbers { type_id, ..NOTHING }
}

/// The numbers of a call of a method itself.
fn method_numbers(method: u16) -> Numbers
    ensures { result.method ≡ method }
{
    Numbers { method, ..NOTHING }
}

/// The numbers of a call of a private method itself, or of another one by its selector.
fn call_numbers(alloc: Global, ids: &Ids, used: &MethodUse) -> Result<Numbers, AllocError>
    requires { FitIds ids.now }
    ensures { IfOk result (λ numbers. AreCalled (ids_of (numbers_in ids.now)) numbers used.now) }
{
    if used.private {
        return Ok(method_numbers(ids.method_id(used.method)));
    }
    Ok(Numbers {
        selector: selector_number(alloc, ids, used)?,
        ..NOTHING
    })
}

/// The numbers of a call through an interface.
fn interface_numbers(alloc: Global, ids: &Ids, used: &MethodUse) -> Result<Numbers, AllocError>
    requires { FitIds ids.now }
    ensures called { IfOk result (λ numbers. AreCalled (ids_of (numbers_in ids.now)) numbers used.now) }
    ensures named { IfOk result (λ numbers. (ids_of (numbers_in ids.now)).type (record { dims = 0; base = base.Class used.now.class }) ≡ numbers.type_id) }
{
    let called = call_numbers(alloc, ids, used)?;
    let named = TypeRef {
        dims: 0,
        base: TypeBase::Class(used.class),
    };
    Ok(Numbers {
        type_id: ids.type_id(named),
        ..called
    })
}

/// The numbers of what an instruction names, where these are the offsets of instructions.
pub(crate) fn numbers_of(
    alloc: Global,
    parts: &Parts<'_>,
    offsets: &[u32],
    op: &Op,
) -> Result<Numbers, AllocError>
    requires parts { AreParts parts.now }
    requires fits { (pc : ℕ) → offset_in parts.now.body.now.ops offsets.now pc < 2 ^ 16 }
    ensures { IfOk result (λ numbers. let source = source_in parts.now in AreNumbers (locals_by source.plan source.widths) source.ids (offset_in source.body.ops offsets.now) numbers op.now) }
{
    let ops = parts.body.ops.as_slice();
    let ids = parts.ids;
    match op {
        Op::Load(_, local) | Op::Store(_, local) | Op::Inc { local, .. } => {
            Ok(local_numbers(parts, *local))
        }
        Op::If(_, target) | Op::IfCmp(_, target) | Op::IfRef(_, target) | Op::Goto(target) => {
            Ok(jump_numbers(offset_at(ops, offsets, *target)))
        }
        Op::Switch { default, .. } => Ok(jump_numbers(offset_at(ops, offsets, *default))),
        Op::GetStatic(used) | Op::PutStatic(used) | Op::GetField(used) | Op::PutField(used) => {
            Ok(place_numbers(ids.place(used.field)))
        }
        Op::CallVirtual(used) => call_numbers(alloc, ids, used),
        Op::CallSpecial(used) | Op::CallStatic(used) => {
            Ok(method_numbers(ids.method_id(used.method)))
        }
        Op::CallInterface(used) => interface_numbers(alloc, ids, used),
        Op::New(of) | Op::NewArray(of) | Op::CheckCast(of) | Op::InstanceOf(of) => {
            Ok(type_numbers(ids.type_id(*of)))
        }
        Op::MultiArray { array, .. } => Ok(type_numbers(ids.type_id(*array))),
        _ => Ok(NOTHING),
    }
}
