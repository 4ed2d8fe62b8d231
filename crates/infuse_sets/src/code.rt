//! The code of the methods of a set.

ghost use Rattle.std.specs.Prelude.{◌≡◌, ◌≤◌, ◌⊎◌, ◌++◌, None, Some, true, false, map, filter, nat_lt, length, OnOk, IfOk, IfErr};
ghost use Rattle.std.specs.List.{AllByRecursion};
ghost use Rattle.std.specs.List.Sorted.{IsPartitionPoint};
ghost use Rattle.class_tree.specs.Tree.{Gathers};
ghost use Rattle.jvm_model.specs.declared.refusal.Cause.TheVariants as cause;
ghost use Rattle.jvm_model.specs.Bodies.{AreBodies};
ghost use Rattle.jvm_model.specs.ImageEmission.{method_of as method_by};
ghost use Rattle.jvm_model.specs.NumberedIds.{numbers_of};
ghost use Rattle.infuse_emit.specs.Parts.{FitIds};
ghost use Rattle.set_image.specs.Linked.{in_order, source_by};
ghost use Rattle.set_image.specs.LinkRefusals.{length_refusal, first_of};
ghost use Rattle.infuse_sets.specs.LaidBodies.{are_laid_by_class, is_laid_in, laid_as, IsFitLaid};

use crate::laid::LaidBody;
use crate::refusals::{no_memory, refusal_of_body};
use class_tree::ClassSet;
use image_form::Method;
use infuse_emit::{EmitRefusal, emit};
use infuse_ids::class_order;
use jvm_model::{Cause, Ids, Refusal};
use std::alloc::Global;

/// The method of a body in the image.
fn method_of(alloc: Global, laid: &LaidBody<'_, '_>, ids: &Ids) -> Result<Method, Refusal>
    requires fit { IsFitLaid laid.now }
    requires ids { FitIds ids.now }
    ensures method { IfOk result (λ method. method ≡ method_by (source_by (numbers_of ids.now) (laid_as laid.now))) }
    ensures passed { OnOk result (length_refusal (numbers_of ids.now) (laid_as laid.now) ≡ None) }
    ensures refused { IfErr result (λ why. (why.cause ≡ cause.Memory) ⊎ (length_refusal (numbers_of ids.now) (laid_as laid.now) ≡ Some why)) }
{
    let typed = laid.typed;
    match emit(alloc, typed.body, &typed.types, &laid.plan, ids) {
        Ok(method) => Ok(method),
        Err(EmitRefusal::CodeTooLong { length, .. }) => {
            Err(refusal_of_body(Cause::CodeTooLong, typed.body, 0, length))
        }
        Err(EmitRefusal::Memory) => Err(no_memory()),
    }
}

/// How many bodies are of classes below a number.
fn count_below(laid: &[LaidBody<'_, '_>], class: u32) -> usize
    requires { are_laid_by_class laid.now }
    ensures within { result ≤ length laid.now }
    ensures point { IsPartitionPoint (λ one. nat_lt (laid_as one).body.class class ≡ true) (λ one. nat_lt (laid_as one).body.class class ≡ false) laid.now result }
{
    laid.partition_point(|one| u32::from(one.typed.body.class) < class)
}

/// Those that are of the methods of a class.
fn of_class<'a, 'b, 'c>(laid: &'c [LaidBody<'a, 'b>], class: u16) -> &'c [LaidBody<'a, 'b>]
    requires { are_laid_by_class laid.now }
    ensures { result.now ≡ filter (is_laid_in class) laid.now }
{
    let start = count_below(laid, u32::from(class));
    let end = count_below(laid, u32::from(class) + 1);
    &laid[start..end]
}

/// Adds the methods of bodies.
fn add_methods(
    alloc: Global,
    laid: &[LaidBody<'_, '_>],
    ids: &Ids,
    methods: &mut Vec<Method>,
) -> Result<(), Refusal>
    requires fit { AllByRecursion IsFitLaid laid.now }
    requires ids { FitIds ids.now }
    ensures added { OnOk result (methods.new.items ≡ methods.old.items ++ map (λ one. method_by (source_by (numbers_of ids.now) (laid_as one))) laid.now) }
    ensures passed { OnOk result (AllByRecursion (λ one. length_refusal (numbers_of ids.now) (laid_as one) ≡ None) laid.now) }
{
    for one in laid {
        match method_of(alloc, one, ids) {
            Ok(method) => {
                let Ok(()) = methods.push(method) else {
                    return Err(no_memory());
                };
            }
            Err(why) => return Err(why),
        }
    }
    Ok(())
}

/// The methods of a set in the order of their ids; a refusal is that of any of them, or want of memory.
fn methods_in_order(
    alloc: Global,
    set: &ClassSet,
    laid: &[LaidBody<'_, '_>],
    ids: &Ids,
) -> Result<Vec<Method>, Refusal>
    requires closed { Gathers set.now None }
    requires bodies { AreBodies set.now (map (λ one. (laid_as one).body) laid.now) }
    requires fit { AllByRecursion IsFitLaid laid.now }
    requires ids { FitIds ids.now }
    ensures methods { IfOk result (λ methods. methods.items ≡ map (λ typed. method_by (source_by (numbers_of ids.now) typed)) (in_order set.now (map laid_as laid.now))) }
    ensures passed { OnOk result (first_of (length_refusal (numbers_of ids.now)) (map laid_as laid.now) ≡ None) }
{
    let mut methods = Vec::new(alloc);
    let Ok(order) = class_order(alloc, set) else {
        return Err(no_memory());
    };
    let classes = order.as_slice();
    for class in classes {
        match add_methods(alloc, of_class(laid, *class), ids, &mut methods) {
            Ok(()) => {}
            Err(why) => return Err(why),
        }
    }
    Ok(methods)
}

/// The refusal of the first body, in the order of files and methods, whose code is too long. Where none is, which does not
/// come, it is want of memory.
fn first_too_long(alloc: Global, laid: &[LaidBody<'_, '_>], ids: &Ids) -> Refusal
    requires fit { AllByRecursion IsFitLaid laid.now }
    requires ids { FitIds ids.now }
    ensures { (result.cause ≡ cause.Memory) ⊎ (first_of (length_refusal (numbers_of ids.now)) (map laid_as laid.now) ≡ Some result) }
{
    for one in laid {
        match method_of(alloc, one, ids) {
            Ok(_) => {}
            Err(why) => return why,
        }
    }
    no_memory()
}

/// The methods of a set in the order of their ids.
pub(crate) fn methods_of(
    alloc: Global,
    set: &ClassSet,
    laid: &[LaidBody<'_, '_>],
    ids: &Ids,
) -> Result<Vec<Method>, Refusal>
    requires closed { Gathers set.now None }
    requires bodies { AreBodies set.now (map (λ one. (laid_as one).body) laid.now) }
    requires fit { AllByRecursion IsFitLaid laid.now }
    requires ids { FitIds ids.now }
    ensures methods { IfOk result (λ methods. methods.items ≡ map (λ typed. method_by (source_by (numbers_of ids.now) typed)) (in_order set.now (map laid_as laid.now))) }
    ensures passed { OnOk result (first_of (length_refusal (numbers_of ids.now)) (map laid_as laid.now) ≡ None) }
    ensures refused { IfErr result (λ why. (why.cause ≡ cause.Memory) ⊎ (first_of (length_refusal (numbers_of ids.now)) (map laid_as laid.now) ≡ Some why)) }
{
    match methods_in_order(alloc, set, laid, ids) {
        Ok(methods) => Ok(methods),
        Err(_) => Err(first_too_long(alloc, laid, ids)),
    }
}
