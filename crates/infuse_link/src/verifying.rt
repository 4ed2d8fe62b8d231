//! The phase of types: what `flow_verify` answers for each body of a closed set, as the set says it.

ghost use Rattle.std.specs.Prelude.{◌≡◌, ◌⊎◌, None, Some, map, OnOk, IfOk, IfErr};
ghost use Rattle.std.specs.List.{AllByRecursion};
ghost use Rattle.class_tree.specs.Tree.{Gathers};
ghost use Rattle.jvm_model.specs.declared.refusal.Cause.TheVariants as cause;
ghost use Rattle.jvm_model.specs.Bodies.{AreBodies};
ghost use Rattle.jvm_model.specs.TypesNames.{IsOfSet};
ghost use Rattle.jvm_model.specs.TypesRight.{IsLeast};
ghost use Rattle.jvm_model.specs.Verification.{unverified_at, BodyTypes, Typing};
ghost use Rattle.type_table.specs.Types.{table_of};
ghost use Rattle.flow_verify.specs.Verified.{AreReached};
ghost use Rattle.infuse_link.specs.Stages.{IsVerified};

use body_form::Body;
use class_tree::ClassSet;
use flow_verify::{VerifyRefusal, verify};
use infuse_sets::TypedBody;
use jvm_model::{Cause, Refusal};
use library::FIRST_OWN;
use std::alloc::Global;
use type_table::Types;

/// The refusal of a method of a class at a pc.
fn unverified(class: u16, method: u16, pc: u32) -> Refusal
    ensures { result ≡ unverified_at class method pc }
{
    Refusal {
        cause: Cause::Unverified,
        file: u32::from(class.saturating_sub(FIRST_OWN)),
        member: u32::from(method),
        pc,
        value: 0,
    }
}

/// There was no memory.
fn no_memory() -> Refusal
    ensures { result.cause ≡ cause.Memory }
{
    Refusal {
        cause: Cause::Memory,
        file: 0,
        member: 0,
        pc: 0,
        value: 0,
    }
}

/// The types of a body of a closed set.
fn types_of(alloc: Global, set: &ClassSet, body: &Body) -> Result<Types, Refusal>
    requires closed { Gathers set.now None }
    requires names { IsOfSet set.now body.now }
    ensures least { IfOk result (λ types. IsLeast set.now body.now (table_of types)) }
    ensures rows { IfOk result (AreReached body.now) }
    ensures refused { IfErr result (λ why. (why.cause ≡ cause.Memory) ⊎ BodyTypes set.now body.now (Some why)) }
{
    match verify(alloc, set, body) {
        Ok(types) => Ok(types),
        Err(VerifyRefusal::Unverified { method, pc }) => Err(unverified(body.class, method, pc)),
        Err(VerifyRefusal::Memory) => Err(no_memory()),
    }
}

/// The bodies of a closed set with their types.
pub(crate) fn typed_bodies<'a>(
    alloc: Global,
    set: &ClassSet,
    bodies: &'a [Body],
) -> Result<Vec<TypedBody<'a>>, Refusal>
    requires closed { Gathers set.now None }
    requires bodies { AreBodies set.now bodies.now }
    ensures typing { OnOk result (Typing set.now None) }
    ensures bodies { IfOk result (λ typed. map (λ one. one.body.now) typed.items ≡ bodies.now) }
    ensures types { IfOk result (λ typed. AllByRecursion (IsVerified set.now) typed.items) }
    ensures refused { IfErr result (λ why. (why.cause ≡ cause.Memory) ⊎ Typing set.now (Some why)) }
{
    let mut typed = Vec::new(alloc);
    for body in bodies {
        match types_of(alloc, set, body) {
            Ok(types) => {
                let Ok(()) = typed.push(TypedBody { body, types }) else {
                    return Err(no_memory());
                };
            }
            Err(why) => return Err(why),
        }
    }
    Ok(typed)
}
