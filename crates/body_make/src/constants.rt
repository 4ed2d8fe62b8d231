//! The constants of static fields.

ghost use Rattle.std.specs.Prelude.{◌≡◌, ◌⊎◌, ◌≤◌, ◌-◌, None, Some, IfOk, OnOk, IfErr};
ghost use Rattle.jvm_model.specs.Phases.{first_refusal};
ghost use Rattle.jvm_model.specs.Initialisers.{is_constant_of as is_constant_of_field, has_bad_constant as has_bad_constant_of};
ghost use Rattle.jvm_model.specs.Linking.{constant_refusal};
ghost use Rattle.body_make.specs.Refusals.{no_memory, refusal_of};

use crate::kinds::{is_whole_kind, kind_at};
use crate::places::refusal_at;
use crate::refusal::{LinkCause, LinkRefusal};
use class_file::{ClassFile, Member, is_static};
use class_pool::Pool;
use std::alloc::Global;

/// The entry is an Integer, and the field is of a whole number.
fn is_constant_of(
    alloc: Global,
    pool: &Pool,
    field: &Member,
    index: u16,
) -> Result<bool, LinkRefusal>
    ensures found { IfOk result (λ is. is ≡ is_constant_of_field pool.now field.now index) }
    ensures memory { IfErr result (λ why. why ≡ no_memory) }
{
    match kind_at(alloc, pool, field.descriptor) {
        Ok(Some(kind)) => Ok(is_whole_kind(&kind) && pool.integer(index).is_some()),
        Ok(None) => Ok(false),
        Err(why) => Err(why),
    }
}

/// The field is static and has a constant that is none of its type.
fn has_bad_constant(alloc: Global, pool: &Pool, field: &Member) -> Result<bool, LinkRefusal>
    ensures found { IfOk result (λ bad. bad ≡ has_bad_constant_of pool.now field.now) }
    ensures memory { IfErr result (λ why. why ≡ no_memory) }
{
    if !is_static(field.flags) {
        return Ok(false);
    }
    match field.constant {
        Some(index) => match is_constant_of(alloc, pool, field, index) {
            Ok(is) => Ok(!is),
            Err(why) => Err(why),
        },
        None => Ok(false),
    }
}

/// Tests the constant of each of these fields of a class.
pub(crate) fn test_constants(
    alloc: Global,
    class: u16,
    file: &ClassFile,
    fields: &[Member],
) -> Result<(), LinkRefusal>
    requires { 32 ≤ class }
    ensures passed { OnOk result (first_refusal (constant_refusal (class - 32) file.now) 0 fields.now ≡ None) }
    ensures refused { IfErr result (λ why. (why ≡ no_memory) ⊎ (first_refusal (constant_refusal (class - 32) file.now) 0 fields.now ≡ Some (refusal_of why))) }
{
    for (member, field) in fields.iter().enumerate() {
        match has_bad_constant(alloc, &file.pool, field) {
            Ok(false) => {}
            Ok(true) => return Err(refusal_at(LinkCause::BadInitialiser, class, member, 0, 1)),
            Err(why) => return Err(why),
        }
    }
    Ok(())
}
