//! The form that is built.

ghost use Rattle.std.specs.Prelude.{◌≡◌, None, Some, map, OnOk, IfErr};
ghost use Rattle.set_image.specs.LinkRefusals.{is_built as is_built_op, first_outside as first_outside_of, outside_body as outside_body_of, form_refusal, first_of};

use crate::refusals::refusal_of_body;
use body_form::{Body, Op};
use jvm_model::{Cause, Refusal};

/// Whether an instruction is one that runs so far.
fn is_built(op: &Op) -> bool
    ensures { result ≡ is_built_op op.now }
{
    matches!(
        op,
        Op::Nop
            | Op::Const(_)
            | Op::Load(..)
            | Op::Store(..)
            | Op::Inc { .. }
            | Op::Stack(_)
            | Op::Bin(_)
            | Op::Unary(_)
            | Op::If(..)
            | Op::IfCmp(..)
            | Op::IfRef(..)
            | Op::Goto(_)
            | Op::Switch { .. }
            | Op::Return(_)
            | Op::GetStatic(_)
            | Op::PutStatic(_)
            | Op::CallStatic(_)
    )
}

/// The pc of the first instruction that does not run so far.
fn first_outside(ops: &[(u32, Op)]) -> Option<u32>
    ensures { result ≡ first_outside_of ops.now }
{
    for x in ops {
        if !is_built(&x.1) {
            return Some(x.0);
        }
    }
    None
}

/// Where a body is of no form that runs so far.
fn outside_body(body: &Body) -> Option<u32>
    ensures { result ≡ outside_body_of body.now }
{
    if 0 < body.handlers.as_slice().len() {
        return Some(0);
    }
    first_outside(body.ops.as_slice())
}

/// Tests that a body is of the form that runs so far.
fn test_body(body: &Body) -> Result<(), Refusal>
    ensures passed { OnOk result (form_refusal body.now ≡ None) }
    ensures refused { IfErr result (λ why. form_refusal body.now ≡ Some why) }
{
    match outside_body(body) {
        Some(pc) => Err(refusal_of_body(Cause::Unbuilt, body, pc, 0)),
        None => Ok(()),
    }
}

/// Tests that each body is of the form that runs so far.
pub(crate) fn test_forms(bodies: &[Body]) -> Result<(), Refusal>
    ensures passed { OnOk result (first_of form_refusal bodies.now ≡ None) }
    ensures refused { IfErr result (λ why. first_of form_refusal bodies.now ≡ Some why) }
{
    for body in bodies {
        match test_body(body) {
            Ok(()) => {}
            Err(why) => return Err(why),
        }
    }
    Ok(())
}
