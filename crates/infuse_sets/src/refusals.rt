//! The refusals of a set that has no image.

ghost use Rattle.std.specs.Prelude.{◌≡◌, ◌≤◌};
ghost use Rattle.jvm_model.specs.declared.refusal.Cause.TheVariants as cause;
ghost use Rattle.set_image.specs.LinkRefusals.{refusal_of_body as body_refusal_of};

use body_form::Body;
use jvm_model::{Cause, Refusal};
use library::FIRST_OWN;

/// The refusal of a body at a pc.
pub(crate) fn refusal_of_body(cause: Cause, body: &Body, pc: u32, value: u32) -> Refusal
    ensures { result ≡ body_refusal_of cause body.now pc value }
{
    Refusal {
        cause,
        file: u32::from(body.class.saturating_sub(FIRST_OWN)),
        member: u32::from(body.method),
        pc,
        value,
    }
}

/// There was no memory.
pub(crate) fn no_memory() -> Refusal
    ensures { result.cause ≡ cause.Memory }
{
    Refusal {
        cause: Cause::Memory,
        file: 0,
        member: 0,
        pc: 0,
        value: 0,
    }
}
