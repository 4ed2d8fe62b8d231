//! Where control goes in a body.

ghost use Rattle.std.specs.Prelude.{◌≡◌, ◌++◌, map, IfOk, OnOk};
ghost use Rattle.body_form.specs.Flow.{IsStart, goes_on, targets, leads_to, lead_from, successors, covers, handlers_at};

use crate::body::{Body, Guard};
use crate::op::Op;
use insn_form::SwitchRow;
use std::alloc::{AllocError, Global};

/// Want of memory.
pub type Memory = AllocError;

/// Whether the instruction goes on to the one after it.
pub(crate) fn goes_on(op: &Op) -> bool
    ensures { result ≡ goes_on op.now }
{
    match op {
        Op::Goto(_) | Op::Switch { .. } | Op::Return(_) | Op::Throw => false,
        _ => true,
    }
}

/// Appends the targets of the rows of a switch.
fn append_rows(out: &mut Vec<u32>, rows: &[SwitchRow]) -> Result<(), Memory>
    ensures { OnOk result (out.new.items ≡ out.old.items ++ map (λ row. row.target) rows.now) }
{
    for row in rows {
        match out.push(row.target) {
            Ok(()) => {}
            Err(why) => return Err(why.into()),
        }
    }
    Ok(())
}

/// Appends the targets that the instruction names.
fn append_targets(out: &mut Vec<u32>, op: &Op) -> Result<(), Memory>
    ensures { OnOk result (out.new.items ≡ out.old.items ++ targets op.now) }
{
    match op {
        Op::If(_, target) | Op::IfCmp(_, target) | Op::IfRef(_, target) | Op::Goto(target) => {
            out.push(*target)?;
            Ok(())
        }
        Op::Switch { default, rows, .. } => {
            out.push(*default)?;
            append_rows(out, rows.as_slice())
        }
        _ => Ok(()),
    }
}

/// The pcs to which an instruction leads, where these follow it.
fn leads_to(alloc: Global, op: &Op, suffix: &[(u32, Op)]) -> Result<Vec<u32>, Memory>
    ensures { IfOk result (λ v. v.items ≡ leads_to op.now suffix.now) }
{
    let mut out = Vec::new(alloc);
    match suffix {
        [next, ..] if goes_on(op) => out.push(next.0)?,
        _ => {}
    }
    append_targets(&mut out, op)?;
    Ok(out)
}

/// The pcs to which the first of these instructions leads.
fn lead_from(alloc: Global, ops: &[(u32, Op)]) -> Result<Vec<u32>, Memory>
    ensures { IfOk result (λ v. v.items ≡ lead_from ops.now) }
{
    match ops {
        [first, suffix @ ..] => leads_to(alloc, &first.1, suffix),
        [] => Ok(Vec::new(alloc)),
    }
}

/// The pcs to which the instruction at `at` leads: that of the next instruction, where this one goes on and
/// there is a next one, then its targets in its order, of a switch the default first.
pub fn successors(alloc: Global, body: &Body, at: u32) -> Result<Vec<u32>, Memory>
    requires { IsStart body.now.ops at }
    ensures { IfOk result (λ v. v.items ≡ successors body.now.ops at) }
{
    match body.ops.position_of(at) {
        Some(position) => lead_from(alloc, &body.ops.as_slice()[position..]),
        None => Ok(Vec::new(alloc)),
    }
}

/// Whether the range of a row holds the pc.
fn covers(at: u32, guard: &Guard) -> bool
    ensures { result ≡ covers at guard.now }
{
    guard.start <= at && at < guard.end
}

/// The positions in `handlers` of the rows whose range holds `at`, in order.
#[tactic(auto, using(crate::proofs::Positions::row_more, crate::proofs::Positions::row_less))]
pub fn handlers_at(alloc: Global, body: &Body, at: u32) -> Result<Vec<u32>, Memory>
    ensures { IfOk result (λ v. v.items ≡ handlers_at body.now.handlers at) }
{
    let mut out = Vec::new(alloc);
    if body.handlers.len() > u32::MAX as usize {
        return Err(AllocError);
    }
    for (position, guard) in body.handlers.as_slice().iter().enumerate() {
        if covers(at, guard) {
            match out.push(position as u32) {
                Ok(()) => {}
                Err(why) => return Err(why.into()),
            }
        }
    }
    Ok(out)
}
