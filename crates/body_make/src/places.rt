//! Where a refusal is.

ghost use Rattle.std.specs.Prelude.{◌≡◌, ◌≤◌, ◌-◌};
ghost use Rattle.jvm_model.specs.Phases.{refusal_of_insn};
ghost use Rattle.body_make.specs.Refusals.{cause_of, refusal_of};

use crate::refusal::{LinkCause, LinkRefusal};
use library::FIRST_OWN;

/// The refusal at a pc of a method, or of a field, of a class that has a file.
pub(crate) fn refusal_at(
    cause: LinkCause,
    class: u16,
    member: usize,
    pc: u32,
    value: u32,
) -> LinkRefusal
    requires { 32 ≤ class }
    ensures { refusal_of result ≡ refusal_of_insn (cause_of cause) (class - 32) member pc value }
{
    LinkRefusal {
        cause,
        file: u32::from(class - FIRST_OWN),
        member: u32::try_from(member).unwrap_or(u32::MAX),
        pc,
        value,
    }
}
