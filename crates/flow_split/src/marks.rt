//! Locals that are marked.

ghost use Rattle.std.specs.Prelude.{◌≡◌, ◌||◌, ℕ, Bool, false, nat_eq, map, IfOk};
ghost use Rattle.std.specs.Option.{option_map_or};
ghost use Rattle.std.specs.List.{list_any};
ghost use Rattle.jvm_model.specs.WidthsSlots.{is_store, is_stored, locals_of};
ghost use Rattle.flow_split.specs.Shares.{AreMarks};

use body_form::{Body, Op};
use insn_form::ValueKind;
use std::alloc::{AllocError, Global};

/// Marks a local, where there is one and it is among those that have marks.
pub(crate) fn mark(marks: &mut Vec<bool>, local: Option<u16>)
    ensures { (count : ℕ) (test : ℕ → Bool) → AreMarks count test marks.old.items → AreMarks count (λ other. test other || option_map_or (λ one. nat_eq one other) local false) marks.new.items }
{
    match local {
        Some(local) => {
            let index = usize::from(local);
            if index < marks.len() {
                marks[index] = true;
            }
        }
        None => {}
    }
}

/// The local in which an instruction stores so.
fn stored_in(kind: ValueKind, op: &Op) -> Option<u16>
    ensures { (pc local : ℕ) → is_store kind local (pc, op.now) ≡ option_map_or (λ other. nat_eq other local) result false }
{
    match (kind, op) {
        (ValueKind::Int, Op::Store(ValueKind::Int, local)) => Some(*local),
        (ValueKind::Ref, Op::Store(ValueKind::Ref, local)) => Some(*local),
        _ => None,
    }
}

/// Marks the locals in which these instructions store so.
fn mark_stores(marks: &mut Vec<bool>, kind: ValueKind, ops: &[(u32, Op)])
    ensures { (count : ℕ) (test : ℕ → Bool) → AreMarks count test marks.old.items → AreMarks count (λ local. test local || list_any (is_store kind local) ops.now) marks.new.items }
{
    for x in ops {
        mark(marks, stored_in(kind, &x.1));
    }
}

/// For each local, whether an instruction stores so in it.
pub(crate) fn stored_marks(
    alloc: Global,
    kind: ValueKind,
    body: &Body,
) -> Result<Vec<bool>, AllocError>
    ensures { IfOk result (λ marks. marks.items ≡ map (is_stored kind body.now) (locals_of body.now)) }
{
    let mut marks = vec![in alloc; false; usize::from(body.max_locals)]?;
    mark_stores(&mut marks, kind, body.ops.as_slice());
    Ok(marks)
}
