//! The layouts of the frames of a set.

ghost use Rattle.std.specs.Prelude.{◌≡◌, ◌⊎◌, None, Some, List, map, OnOk, IfOk, IfErr};
ghost use Rattle.std.specs.List.{AllByRecursion};
ghost use Rattle.class_file.specs.declared.record.ClassFile.{ClassFile};
ghost use Rattle.jvm_model.specs.declared.refusal.Cause.TheVariants as cause;
ghost use Rattle.set_image.specs.Linked.{IsTyped as HasLeastTypes, plan_for};
ghost use Rattle.set_image.specs.LinkRefusals.{frame_refusal, first_of};
ghost use Rattle.infuse_sets.specs.LaidBodies.{IsLaid};
ghost use Rattle.infuse_sets.specs.TypedBodies.{IsFit, typed_of};

use crate::laid::LaidBody;
use crate::refusals::{no_memory, refusal_of_body};
use crate::typed::TypedBody;
use flow_split::{SplitRefusal, right_types_name_locals, split};
use item_list::Items;
use jvm_model::{Cause, Plan, Refusal};
use std::alloc::Global;

/// How the frame of a body is laid out.
fn plan_of(alloc: Global, typed: &TypedBody<'_>) -> Result<Plan, Refusal>
    ghost classes: { List ClassFile }

    requires least { HasLeastTypes classes (typed_of typed.now) }
    requires fit { IsFit typed.now }
    ensures plan { IfOk result (λ plan. plan ≡ plan_for (typed_of typed.now)) }
    ensures passed { OnOk result (frame_refusal (typed_of typed.now) ≡ None) }
    ensures refused { IfErr result (λ why. (why.cause ≡ cause.Memory) ⊎ (frame_refusal (typed_of typed.now) ≡ Some why)) }
{
    right_types_name_locals();
    match split(alloc, typed.body, &typed.types, &Items::empty(alloc)) {
        Ok(plan) => Ok(plan),
        Err(SplitRefusal::FrameTooLarge { cells, .. }) => {
            Err(refusal_of_body(Cause::FrameTooLarge, typed.body, 0, cells))
        }
        Err(SplitRefusal::Memory) => Err(no_memory()),
    }
}

/// The bodies with their layouts.
pub(crate) fn laid_out<'a, 'b>(
    alloc: Global,
    typed: &'a [TypedBody<'b>],
) -> Result<Vec<LaidBody<'a, 'b>>, Refusal>
    ghost classes: { List ClassFile }

    requires least { AllByRecursion (λ typed. HasLeastTypes classes (typed_of typed)) typed.now }
    requires fit { AllByRecursion IsFit typed.now }
    ensures all { IfOk result (λ laid. map (λ one. one.typed.now) laid.items ≡ typed.now) }
    ensures laid { IfOk result (λ laid. AllByRecursion IsLaid laid.items) }
    ensures passed { OnOk result (first_of frame_refusal (map typed_of typed.now) ≡ None) }
    ensures refused { IfErr result (λ why. (why.cause ≡ cause.Memory) ⊎ (first_of frame_refusal (map typed_of typed.now) ≡ Some why)) }
{
    let mut laid = Vec::new(alloc);
    for one in typed {
        match plan_of(alloc, one) {
            Ok(plan) => {
                let Ok(()) = laid.push(LaidBody { typed: one, plan }) else {
                    return Err(no_memory());
                };
            }
            Err(why) => return Err(why),
        }
    }
    Ok(laid)
}
