//! The rows of a method's code that handle throws.

ghost use Rattle.std.specs.Prelude.{◌≡◌, ℕ, ◌<◌, ◌^◌, IfOk};
ghost use Rattle.jvm_model.specs.ImageEmission.{offset_of, caught_id as caught_id_of, handler_of as handler_by, handlers_of as handlers_by};
ghost use Rattle.infuse_emit.specs.Offsets.{offset_in};
ghost use Rattle.infuse_emit.specs.Parts.{source_in, AreParts};

use crate::offsets::offset_at;
use crate::parts::Parts;
use body_form::Guard;
use class_pool::{TypeBase, TypeRef};
use image_form::HandlerEntry;
use std::alloc::{AllocError, Global};

/// The class of a row that catches any.
const ANY: u16 = 65_535;

/// The id of the class that a row catches.
fn caught_id(parts: &Parts<'_>, guard: Guard) -> u16
    requires { AreParts parts.now }
    ensures { result ≡ caught_id_of (source_in parts.now) guard }
{
    match guard.class {
        Some(class) => parts.ids.type_id(TypeRef {
            dims: 0,
            base: TypeBase::Class(class),
        }),
        None => ANY,
    }
}

/// A row with the offsets of its pcs.
fn handler_of(parts: &Parts<'_>, offsets: &[u32], guard: Guard) -> HandlerEntry
    requires parts { AreParts parts.now }
    requires fits { (pc : ℕ) → offset_in parts.now.body.now.ops offsets.now pc < 2 ^ 16 }
    requires told { (pc : ℕ) → offset_in parts.now.body.now.ops offsets.now pc ≡ offset_of (source_in parts.now) pc }
    ensures { result ≡ handler_by (source_in parts.now) guard }
{
    let ops = parts.body.ops.as_slice();
    HandlerEntry {
        start: offset_at(ops, offsets, guard.start),
        end: offset_at(ops, offsets, guard.end),
        target: offset_at(ops, offsets, guard.target),
        class: caught_id(parts, guard),
    }
}

/// The rows that cover some code, in their order.
pub(crate) fn handlers_of(
    alloc: Global,
    parts: &Parts<'_>,
    offsets: &[u32],
) -> Result<Vec<HandlerEntry>, AllocError>
    requires parts { AreParts parts.now }
    requires fits { (pc : ℕ) → offset_in parts.now.body.now.ops offsets.now pc < 2 ^ 16 }
    requires told { (pc : ℕ) → offset_in parts.now.body.now.ops offsets.now pc ≡ offset_of (source_in parts.now) pc }
    ensures { IfOk result (λ handlers. handlers.items ≡ handlers_by (source_in parts.now)) }
{
    let mut handlers = Vec::new(alloc);
    for guard in parts.body.handlers.as_slice() {
        let handler = handler_of(parts, offsets, *guard);
        if handler.start < handler.end {
            handlers.push(handler)?;
        }
    }
    Ok(handlers)
}
