//! The types that bodies show.

ghost use Rattle.std.specs.Prelude.{◌≡◌, OnOk};
ghost use Rattle.std.specs.List.{fold};
ghost use Rattle.jvm_model.specs.ImageNumbering.{shown_by as shown_by_op, with_arrays, with_body, with_shown};

use body_form::{Body, Op};
use class_pool::{TypeBase, TypeRef};
use jvm_model::TypeList;
use std::alloc::AllocError;

/// The type that an instruction makes an array of, or tests for.
fn shown_by(instruction: &Op) -> Option<TypeRef>
    ensures { result ≡ shown_by_op instruction.now }
{
    match instruction {
        Op::NewArray(of) => Some(*of),
        Op::MultiArray { array, .. } => Some(*array),
        Op::CheckCast(of) => Some(*of),
        Op::InstanceOf(of) => Some(*of),
        _ => None,
    }
}

/// Adds the arrays of a base, up to so many dimensions.
fn add_arrays(types: &mut TypeList, base: TypeBase, dims: u8) -> Result<(), AllocError>
    ensures { OnOk result (types.new ≡ with_arrays base dims types.old) }
{
    for lower in 0..dims {
        match types.add(TypeRef {
            dims: lower + 1,
            base,
        }) {
            Ok(()) => {}
            Err(why) => return Err(why),
        }
    }
    Ok(())
}

/// Adds the types that an instruction shows.
fn add_shown(types: &mut TypeList, x: &(u32, Op)) -> Result<(), AllocError>
    ensures { OnOk result (types.new ≡ with_shown types.old x.now) }
{
    match shown_by(&x.1) {
        Some(of) => match add_arrays(types, of.base, of.dims) {
            Ok(()) => Ok(()),
            Err(why) => Err(why),
        },
        None => Ok(()),
    }
}

/// Adds the types that the instructions of a body show.
pub(crate) fn add_body(types: &mut TypeList, body: &Body) -> Result<(), AllocError>
    ensures { OnOk result (types.new ≡ with_body types.old body.now) }
{
    for x in body.ops.as_slice() {
        match add_shown(types, x) {
            Ok(()) => {}
            Err(why) => return Err(why),
        }
    }
    Ok(())
}
