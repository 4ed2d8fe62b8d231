//! The code of a method: its instructions as families, and the rows of its exception table, with what they
//! name resolved, or the first refusal of what they name.

ghost use Rattle.std.specs.Prelude.{◌≡◌, ◌⊎◌, ◌≤◌, ◌-◌, ℕ, true, None, Some, IfOk, OnOk, IfErr};
ghost use Rattle.class_tree.specs.Set.{IsClass};
ghost use Rattle.class_code.specs.Code.{RiseFrom};
ghost use Rattle.class_code.specs.Flow.{code_ways};
ghost use Rattle.jvm_model.specs.Phases.{first_refusal};
ghost use Rattle.jvm_model.specs.FirstOf.{FirstOf};
ghost use Rattle.jvm_model.specs.Instructions.{op_of as op_of_insn, caught_by as caught_by_entry};
ghost use Rattle.jvm_model.specs.Linking.{fault_of, refusal_at as refusal_at_pc, NamesOf, row_refusal};
ghost use Rattle.jvm_model.specs.Bodies.{AreEach, IsFamily, IsGuard};
ghost use Rattle.body_make.specs.Refusals.{no_memory, refusal_of};
ghost use Rattle.body_make.specs.Names.{Refuses, RefusesFor, IsOpOf};

use crate::fault::Fault;
use crate::handlers::caught_by;
use crate::instructions::op_of;
use crate::places::refusal_at;
use crate::refusal::{LinkCause, LinkRefusal, NO_MEMORY};
use body_form::{Guard, Op};
use class_code::{Insn, reached};
use class_file::{ClassFile, HandlerRow};
use class_pool::Pool;
use class_tree::ClassSet;
use std::alloc::Global;

/// The refusal for a fault at a pc of a method of a class that has a file.
fn refusal_for(fault: Fault, class: u16, member: u16, pc: u32) -> LinkRefusal
    requires { 32 ≤ class }
    ensures { RefusesFor (class - 32) member pc fault result }
{
    let member = usize::from(member);
    match fault {
        Fault::Unresolved => refusal_at(LinkCause::Unresolved, class, member, pc, 0),
        Fault::WrongKind => refusal_at(LinkCause::WrongKind, class, member, pc, 0),
        Fault::Denied => refusal_at(LinkCause::Denied, class, member, pc, 0),
        Fault::Memory => NO_MEMORY,
    }
}

/// The family of an instruction, where it is reached, and else nop.
#[tactic(auto, using(crate::proofs::Placed::told_refusal))]
fn op_at(
    alloc: Global,
    set: &ClassSet,
    class: u16,
    member: u16,
    pool: &Pool,
    reached: bool,
    placed: &(u32, Insn),
) -> Result<Op, LinkRefusal>
    requires own { 32 ≤ class }
    requires within { IsClass set.now class }
    ensures op { IfOk result (IsOpOf set.now class pool.now reached placed.now.1) }
    ensures refused { IfErr result (λ why. (why ≡ no_memory) ⊎ ((reached ≡ true) × (refusal_at_pc (class - 32) member placed.now.0 (fault_of (op_of_insn set.now class pool.now placed.now.1)) ≡ Some (refusal_of why)))) }
{
    if !reached {
        return Ok(Op::Nop);
    }
    match op_of(alloc, set, class, pool, &placed.1) {
        Ok(op) => Ok(op),
        Err(fault) => Err(refusal_for(fault, class, member, placed.0)),
    }
}

/// The families of the instructions of a method, of those that are not reached nop.
pub(crate) fn ops_of(
    alloc: Global,
    set: &ClassSet,
    class: u16,
    member: u16,
    file: &ClassFile,
    handlers: &[HandlerRow],
    insns: &[(u32, Insn)],
) -> Result<Vec<(u32, Op)>, LinkRefusal>
    requires own { 32 ≤ class }
    requires within { IsClass set.now class }
    requires rise { RiseFrom 0 insns.now }
    ensures families { IfOk result (λ v. AreEach (IsFamily set.now class file.now.pool (code_ways handlers.now insns.now)) insns.now v.items) }
    ensures passed { OnOk result (FirstOf (λ index x. NamesOf set.now (class - 32) file.now member (code_ways handlers.now insns.now) x) 0 insns.now None) }
    ensures refused { IfErr result (Refuses (FirstOf (λ index x. NamesOf set.now (class - 32) file.now member (code_ways handlers.now insns.now) x) 0 insns.now)) }
{
    let flags = reached(alloc, insns, handlers)?;
    let mut ops = Vec::new(alloc);
    for (index, placed) in insns.iter().enumerate() {
        match op_at(alloc, set, class, member, &file.pool, flags[index], placed) {
            Ok(op) => match ops.push((placed.0, op)) {
                Ok(()) => {}
                Err(why) => return Err(why.into()),
            },
            Err(why) => return Err(why),
        }
    }
    Ok(ops)
}

/// A row of an exception table, with the class that it catches resolved.
#[tactic(auto, using(crate::proofs::Placed::told_refusal))]
fn guard_of(
    alloc: Global,
    set: &ClassSet,
    class: u16,
    member: u16,
    file: &ClassFile,
    row: HandlerRow,
) -> Result<Guard, LinkRefusal>
    requires own { 32 ≤ class }
    requires within { IsClass set.now class }
    ensures guard { IfOk result (IsGuard set.now class file.now.pool row) }
    ensures refused { IfErr result (λ why. (why ≡ no_memory) ⊎ (refusal_at_pc (class - 32) member row.target (fault_of (caught_by_entry set.now class file.now.pool row.catch_type)) ≡ Some (refusal_of why))) }
{
    match caught_by(alloc, set, class, &file.pool, row.catch_type) {
        Ok(caught) => Ok(Guard {
            start: u32::from(row.start),
            end: u32::from(row.end),
            target: u32::from(row.target),
            class: caught,
        }),
        Err(fault) => Err(refusal_for(fault, class, member, u32::from(row.target))),
    }
}

/// The rows of the exception table of a method.
pub(crate) fn guards_of(
    alloc: Global,
    set: &ClassSet,
    class: u16,
    member: u16,
    file: &ClassFile,
    rows: &[HandlerRow],
) -> Result<Vec<Guard>, LinkRefusal>
    requires own { 32 ≤ class }
    requires within { IsClass set.now class }
    ensures guards { IfOk result (λ v. AreEach (IsGuard set.now class file.now.pool) rows.now v.items) }
    ensures passed { OnOk result (first_refusal (row_refusal set.now (class - 32) file.now member) 0 rows.now ≡ None) }
    ensures refused { IfErr result (λ why. (why ≡ no_memory) ⊎ (first_refusal (row_refusal set.now (class - 32) file.now member) 0 rows.now ≡ Some (refusal_of why))) }
{
    let mut guards = Vec::new(alloc);
    for row in rows {
        match guard_of(alloc, set, class, member, file, *row) {
            Ok(guard) => match guards.push(guard) {
                Ok(()) => {}
                Err(why) => return Err(why.into()),
            },
            Err(why) => return Err(why),
        }
    }
    Ok(guards)
}
