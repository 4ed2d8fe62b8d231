//! The method of an image.

ghost use Rattle.std.specs.Prelude.{◌≡◌, ◌≤◌, length, IfOk, IfErr};
ghost use Rattle.code_reach.specs.Reached.{RisesFrom};
ghost use Rattle.jvm_model.specs.ImageEmission.{code_of, handlers_of as handlers_by, method_of, most_code_bytes};
ghost use Rattle.infuse_emit.specs.Parts.{source_by, source_in, FitIds, AreRising, KeepLimits, HasFewParameters, IsTooLong};

use crate::code::{offsets_of, write_code};
use crate::fills::write_fills;
use crate::handlers::handlers_of;
use crate::parts::Parts;
use crate::refusal::EmitRefusal;
use crate::shapes::heights_of;
use crate::signatures::signature_of;
use crate::widths::local_widths;
use body_form::Body;
use image_form::{HandlerEntry, Method};
use item_list::Items;
use jvm_model::{Ids, Plan};
use std::alloc::Global;
use type_table::Types;

/// A method of this code and these rows.
fn method_with(parts: &Parts<'_>, code: Vec<u8>, handlers: Vec<HandlerEntry>) -> Method
    requires few { HasFewParameters parts.now.body.now }
    requires code { code.items ≡ code_of (source_in parts.now) }
    requires handlers { handlers.items ≡ handlers_by (source_in parts.now) }
    ensures { result ≡ method_of (source_in parts.now) }
{
    let plan = parts.plan;
    Method {
        sig: signature_of(parts.body),
        ref_locals: plan.ref_locals,
        cell_locals: plan.cell_locals,
        body: plan.body,
        code: Items::from_vec(code),
        handlers: Items::from_vec(handlers),
    }
}

/// The code of a method, with its signature and the rows that handle throws, of its types, of how its frame is laid out,
/// and of the numbers of what it names. Its bytes are counted before they are written: where they are more than 65,535,
/// the code is too long.
pub fn emit(
    alloc: Global,
    body: &Body,
    types: &Types,
    plan: &Plan,
    ids: &Ids,
) -> Result<Method, EmitRefusal>
    requires rise { RisesFrom 0 types.now }
    requires order { AreRising plan.now.narrow }
    requires ids { FitIds ids.now }
    requires keep { KeepLimits body.now }
    requires few { HasFewParameters body.now }

    ensures method { IfOk result (λ method. method ≡ method_of (source_by body.now types.now plan.now ids.now)) }
    ensures fits { IfOk result (λ method. length (code_of (source_by body.now types.now plan.now ids.now)) ≤ most_code_bytes) }
    ensures refused { IfErr result (λ why. IsTooLong (source_by body.now types.now plan.now ids.now) why) }
{
    let heights = heights_of(alloc, types)?;
    let widths = local_widths(alloc, &heights, plan.narrow.as_slice(), body.ops.as_slice())?;
    let parts = Parts {
        body,
        types,
        plan,
        ids,
        heights: &heights,
        widths: &widths,
    };
    let mut code = Vec::new(alloc);
    write_fills(alloc, plan.fills.as_slice(), &mut code)?;
    let first = match u32::try_from(code.len()) {
        Ok(first) => first,
        Err(_) => return Err(EmitRefusal::Memory),
    };
    let offsets = offsets_of(alloc, &parts, first)?;
    write_code(alloc, &parts, &offsets, &mut code)?;
    let handlers = handlers_of(alloc, &parts, &offsets)?;
    Ok(method_with(&parts, code, handlers))
}
