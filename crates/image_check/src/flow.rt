//! Depths are followed from offset 0.

ghost use Rattle.std.specs.Prelude.{◌≡◌, ◌≤◌, ◌+◌, ◌∷◌, ℕ, length, replicate, None, IfOk, IfErr, OnOk};
ghost use Rattle.image_check.specs.declared.refusal.CheckCause.TheVariants.{Memory};
ghost use Rattle.image_check.specs.Visits.{Depth as Depths, IsSent, IsRight};
ghost use Rattle.image_check.specs.Table.{unset};
ghost use Rattle.image_check.specs.Flow.{IsFlow, JumpsWell};
ghost use Rattle.image_check.specs.Refused.{IsFault};

use crate::depth::{Depth, Flow};
use crate::refusal::{CheckCause, Fault};
use crate::send::send_all;
use crate::visit::visit;
use image_form::{Image, Method};
use image_instr::decode_at;
use std::alloc::Global;

/// Visits the instruction at an offset that a depth reached, and sends the depth after it on.
fn step(image: &Image, method: &Method, flow: &mut Flow, pc: u16) -> Result<(), Fault>
    requires well { JumpsWell method.now.code }
    requires small { length method.now.code ≤ 65535 }
    requires flow { IsFlow image.now method.now flow.old.depths.items (pc ∷ flow.old.work.items) }
    ensures kept { OnOk result (IsFlow image.now method.now flow.new.depths.items flow.new.work.items) }
    ensures count { OnOk result (unset flow.new.depths.items + length flow.new.work.items ≡ unset flow.old.depths.items + length flow.old.work.items) }
    ensures refused { IfErr result (λ fault. IsFault image.now method.now fault.cause fault.pc) }
{
    let code = method.code.as_slice();
    let Some(d) = flow.depths[usize::from(pc)] else {
        unreachable!()
    };
    let Some((insn, size)) = decode_at(code, usize::from(pc)) else {
        unreachable!()
    };
    let depth = match visit(image, method, pc, d, insn, size) {
        Ok(depth) => depth,
        Err(cause) => return Err(Fault { cause, pc }),
    };
    if !send_all(code, flow, pc, insn, size, depth)? {
        return Err(Fault {
            cause: CheckCause::BadDepth,
            pc,
        });
    }
    Ok(())
}

/// A table for so many offsets that no depth reached.
fn no_depths(alloc: Global, size: usize) -> Result<Vec<Option<Depth>>, Fault>
    ensures items { IfOk result (λ depths. depths.items ≡ replicate size None) }
    ensures memory { IfErr result (λ fault. fault.cause ≡ Memory) }
{
    let mut depths = Vec::with_capacity(alloc, size)?;
    for _ in 0..size {
        depths.push(None)?;
    }
    Ok(depths)
}

/// Follows the depths from offset 0, where there are no operands. Each offset is visited once, and a
/// second depth at an offset is compared with its first.
pub(crate) fn follow_depths(alloc: Global, image: &Image, method: &Method) -> Result<(), Fault>
    requires well { JumpsWell method.now.code }
    requires some { 1 ≤ length method.now.code }
    requires small { length method.now.code ≤ 65535 }
    ensures right { OnOk result ((pc : ℕ) (d : Depths) → IsSent image.now method.now.code pc d → IsRight image.now method.now pc d) }
    ensures one_depth { OnOk result ((pc : ℕ) (d e : Depths) → IsSent image.now method.now.code pc d → IsSent image.now method.now.code pc e → d ≡ e) }
    ensures refused { IfErr result (λ fault. IsFault image.now method.now fault.cause fault.pc) }
{
    let mut depths = no_depths(alloc, method.code.len())?;
    depths[0] = Some(Depth { refs: 0, cells: 0 });
    let mut work = Vec::new(alloc);
    work.push(0)?;
    let mut flow = Flow { depths, work };
    while let Some(pc) = flow.work.pop() {
        step(image, method, &mut flow, pc)?;
    }
    Ok(())
}
