//! The greatest number of operand cells at an instruction.

ghost use Rattle.std.specs.Prelude.{◌≡◌, ℕ, IfSome};
ghost use Rattle.jvm_model.specs.WidthsShapes.{Point};
ghost use Rattle.jvm_model.specs.WidthsFrame.{call_signature, most_operands};
ghost use Rattle.jvm_model.specs.ImageExpansion.{Locals, Ids, expanded};
ghost use Rattle.flow_split.specs.Around.{is_call as is_call_of, IsAround, IsSeen};

use crate::calls::most_of_call;
use crate::instructions::moves_of;
use crate::peaks::{Peak, most_cells};
use body_form::Op;
use class_pool::Kind;
use image_instr::{Kind as Shape, Width};

/// The instruction calls a method.
fn is_call(op: &Op) -> bool
    ensures { result ≡ is_call_of op.now }
{
    matches!(
        op,
        Op::CallStatic(_) | Op::CallVirtual(_) | Op::CallSpecial(_) | Op::CallInterface(_)
    )
}

/// The greatest number of operand cells at an instruction, from so many before it and the shapes of all operands; `None`
/// where a number does not fit.
fn most_around(
    height: u64,
    op: &Op,
    width: Width,
    before: &[Shape],
    after: Shape,
    kept: &Option<Kind>,
) -> Option<u64>
    ensures { IfSome result (λ most. (locals : Locals) (ids : Ids) (offset : ℕ → ℕ) (point : Point) → IsAround locals point op.now width before.now after → most ≡ most_operands (call_signature op.now) height (expanded locals ids offset kept.now point op.now)) }
{
    if !is_call(op) {
        let start = Peak {
            height,
            most: height,
        };
        return most_cells(start, &moves_of(op, width, before, after, kept));
    }
    match op {
        Op::CallStatic(used) => most_of_call(height, false, used, before, after),
        Op::CallVirtual(used) | Op::CallSpecial(used) | Op::CallInterface(used) => {
            most_of_call(height, true, used, before, after)
        }
        _ => None,
    }
}

/// The greatest number of operand cells at an instruction, from so many before it; `None` where a number does not fit. Of
/// the shapes before it no more count than the instruction looks at.
pub(crate) fn most_of(
    height: u64,
    op: &Op,
    width: Width,
    before: &[Shape],
    after: Shape,
    kept: &Option<Kind>,
) -> Option<u64>
    ensures { IfSome result (λ most. (locals : Locals) (ids : Ids) (offset : ℕ → ℕ) (point : Point) → IsSeen locals point op.now width before.now after → most ≡ most_operands (call_signature op.now) height (expanded locals ids offset kept.now point op.now)) }
{
    most_around(height, op, width, before, after, kept)
}
