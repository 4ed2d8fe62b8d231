//! The depth after an instruction is sent to each of its successors.

ghost use Rattle.std.specs.Prelude.{◌≡◌, ◌≤◌, ◌<◌, ◌+◌, length, drop, slice_index, All, IsTrue, IfOk, IfErr, MatchBool};
ghost use Rattle.image_check.specs.Visits.{goes_on as goes_on_of, successors};
ghost use Rattle.image_check.specs.Targets.{target_count as target_count_of, successor_count as successor_count_of, HoldsAt};
ghost use Rattle.image_check.specs.Table.{as_depth, Has};
ghost use Rattle.image_check.specs.declared.refusal.CheckCause.TheVariants.{Memory};
ghost use Rattle.image_check.specs.Flow.{IsEntered, HasOther, IsSpread, IsSpreadAll, HasOtherAmong};

use crate::depth::{Depth, Flow};
use crate::jumps::{target, target_count};
use crate::refusal::Fault;
use crate::visit::goes_on;
use image_instr::MInsn;

/// Sends a depth to an offset: false where another depth reached it.
fn send(flow: &mut Flow, to: u16, d: Depth) -> Result<bool, Fault>
    requires { to < length flow.old.depths.items }
    ensures sent { IfOk result (λ same. MatchBool same
        (IsEntered flow.old.depths.items flow.old.work.items to (as_depth d) flow.new.depths.items flow.new.work.items)
        (HasOther flow.old.depths.items to (as_depth d))) }
    ensures memory { IfErr result (λ fault. fault.cause ≡ Memory) }
{
    match flow.depths[usize::from(to)] {
        Some(other) => Ok(other == d),
        None => {
            flow.work.push(to)?;
            flow.depths[usize::from(to)] = Some(d);
            Ok(true)
        }
    }
}

/// How many successors an instruction has.
fn successor_count(insn: MInsn) -> usize
    ensures { result ≡ successor_count_of insn }
{
    let count = target_count(insn);
    if goes_on(insn) { count + 1 } else { count }
}

/// A successor of the instruction of this size that is at the offset. What follows it comes
/// first, where it goes on.
fn successor(code: &[u8], pc: u16, insn: MInsn, size: usize, index: usize) -> u16
    requires holds { HoldsAt code.now pc insn }
    requires index { index < successor_count_of insn }
    requires fits { IsTrue (goes_on_of insn) → pc + size ≤ 65535 }
    ensures { result ≡ slice_index (successors code.now pc insn size) index }
{
    if !goes_on(insn) {
        return target(code, pc, insn, index);
    }
    if index == 0 {
        return (usize::from(pc) + size) as u16;
    }
    target(code, pc, insn, index - 1)
}

/// Sends a depth to each successor of the instruction of this size that is at the offset: false
/// where another depth reached one of them.
pub(crate) fn send_all(
    code: &[u8],
    flow: &mut Flow,
    pc: u16,
    insn: MInsn,
    size: usize,
    d: Depth,
) -> Result<bool, Fault>
    requires holds { HoldsAt code.now pc insn }
    requires within { All (λ to. to < length flow.old.depths.items) (successors code.now pc insn size) }
    requires fits { length flow.old.depths.items ≤ 65535 }
    ensures sent { let targets = successors code.now pc insn size in
        IfOk result (λ same. MatchBool same
        (IsSpreadAll targets (as_depth d) flow.old.depths.items flow.old.work.items flow.new.depths.items flow.new.work.items)
        (HasOtherAmong targets (as_depth d) flow.old.depths.items)) }
    ensures memory { IfErr result (λ fault. fault.cause ≡ Memory) }
{
    for index in 0..successor_count(insn) {
        let to = successor(code, pc, insn, size, index);
        if !send(flow, to, d)? {
            return Ok(false);
        }
    }
    Ok(true)
}
