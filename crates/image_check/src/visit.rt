//! The rule that an instruction keeps at a depth.

ghost use Rattle.std.specs.Prelude.{◌≡◌, ◌≤◌, ◌+◌, length, drop, Some, IfOk, IfErr, MatchBool, MatchOption};
ghost use Rattle.image_instr.specs.Reading.{insn_at};
ghost use Rattle.image_check.specs.Visits.{suffix as after_of, HasOperands, FitsBody, ReturnsResult, goes_on as goes_on_of, result_code as result_code_of, moved_by, IsSent};
ghost use Rattle.image_check.specs.Table.{as_depth};
ghost use Rattle.image_check.specs.Flow.{IsVisited};
ghost use Rattle.image_check.specs.Refused.{FailsIn};

use crate::depth::Depth;
use crate::ids::called_by;
use crate::refusal::CheckCause;
use image_form::{Image, Method};
use image_instr::{Effect, Kind, MInsn, effect};

/// Whether the operands that an instruction takes are there.
fn has_operands(effect: Effect, d: Depth) -> bool
    ensures { MatchBool result (HasOperands effect (as_depth d)) (¬ HasOperands effect (as_depth d)) }
{
    effect.ref_pop <= d.refs && effect.cell_pop <= d.cells
}

/// The code of a result: 0 none, 1 a reference, 2 one cell, 3 two cells.
fn result_code(kind: Option<Kind>) -> u8
    ensures { result ≡ result_code_of kind }
{
    match kind {
        None => 0,
        Some(Kind::Ref) => 1,
        Some(Kind::One) => 2,
        Some(Kind::Two) => 3,
    }
}

/// Whether a return gives the method's result.
fn returns_result(method: &Method, insn: MInsn) -> bool
    ensures { MatchBool result (ReturnsResult method.now insn) (¬ ReturnsResult method.now insn) }
{
    match insn {
        MInsn::Ret { result } => result_code(result) == method.sig.result,
        _ => true,
    }
}

/// How many cells the locals take, and how many the body of the frame has.
fn frame_cells(method: &Method) -> (u64, u64)
    ensures locals { result.0 ≡ method.now.ref_locals + method.now.cell_locals }
    ensures body { result.1 ≡ method.now.body }
    ensures few { (result.0 ≤ 131070) × (result.1 ≤ 65535) }
{
    let ref_locals = method.ref_locals;
    let cell_locals = method.cell_locals;
    let body = method.body;
    (
        u64::from(ref_locals) + u64::from(cell_locals),
        u64::from(body),
    )
}

/// Whether locals and operands fit the body of the frame.
fn fits_body(method: &Method, d: Depth) -> bool
    ensures { MatchBool result (FitsBody method.now (as_depth d)) (¬ FitsBody method.now (as_depth d)) }
{
    let (locals, body) = frame_cells(method);
    locals + (u64::from(d.refs) + u64::from(d.cells)) <= body
}

/// The depth after an instruction, where locals and operands fit the body of the frame there.
fn suffix(method: &Method, effect: Effect, d: Depth) -> Option<Depth>
    requires { HasOperands effect (as_depth d) }
    ensures { MatchOption result (¬ FitsBody method.now (after_of effect (as_depth d)))
        (λ b. FitsBody method.now (after_of effect (as_depth d)) × (as_depth b ≡ after_of effect (as_depth d))) }
{
    let refs = u64::from(d.refs - effect.ref_pop) + u64::from(effect.ref_push);
    let cells = u64::from(d.cells - effect.cell_pop) + u64::from(effect.cell_push);
    let (locals, body) = frame_cells(method);
    if body < locals + (refs + cells) {
        return None;
    }
    Some(Depth {
        refs: refs as u32,
        cells: cells as u32,
    })
}

/// Whether the instruction goes on after itself.
pub(crate) fn goes_on(insn: MInsn) -> bool
    ensures { result ≡ goes_on_of insn }
{
    !matches!(
        insn,
        MInsn::Goto { .. }
            | MInsn::Switch { .. }
            | MInsn::Table { .. }
            | MInsn::Ret { .. }
            | MInsn::Throw
    )
}

/// The rule of the instruction of this size at the offset, which the depth reaches. Gives the depth
/// after it.
pub(crate) fn visit(
    image: &Image,
    method: &Method,
    pc: u16,
    d: Depth,
    insn: MInsn,
    size: usize,
) -> Result<Depth, CheckCause>
    requires found { insn_at (drop pc method.now.code) ≡ Some (insn, size) }
    requires fits { size ≤ 65535 }
    requires sent { IsSent image.now method.now.code pc (as_depth d) }
    ensures visited { IfOk result (λ b. IsVisited image.now method.now pc (as_depth d) insn size (as_depth b)) }
    ensures refused { IfErr result (λ cause. FailsIn image.now method.now cause pc) }
{
    let moved = effect(insn, called_by(image, insn));
    if !has_operands(moved, d) {
        return Err(CheckCause::BadDepth);
    }
    if !returns_result(method, insn) {
        return Err(CheckCause::BadDepth);
    }
    if !fits_body(method, d) {
        return Err(CheckCause::Crosses);
    }
    let Some(depth) = suffix(method, moved, d) else {
        return Err(CheckCause::Crosses);
    };
    if goes_on(insn) && method.code.len() <= usize::from(pc) + size {
        return Err(CheckCause::Falls);
    }
    Ok(depth)
}
