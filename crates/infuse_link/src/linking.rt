//! From a closed set of classes to its image: the phases of members and of the entry, then that of types, and then the
//! image of the typed bodies.

ghost use Rattle.std.specs.Prelude.{◌≡◌, ℕ, List, map, None, IfOk, IfErr};
ghost use Rattle.std.specs.List.{AllByRecursion};
ghost use Rattle.body_make.specs.Refusals.{cause_of as cause_of_of, refusal_of as refusal_of_of};
ghost use Rattle.jvm_model.specs.Verification.{Typing};
ghost use Rattle.set_verdict.specs.Verdict.{IsImageOf};
ghost use Rattle.infuse_link.specs.Infused.{RefusedOrMemory};
ghost use Rattle.infuse_link.specs.Stages.{IsClosedSet, IsLinkedSet, IsVerified};

use crate::verifying::typed_bodies;
use body_form::Body;
use body_limits::bodies_keep_limits;
use body_make::{LinkCause, LinkRefusal, bodies};
use class_tree::ClassSet;
use image_form::Image;
use infuse_sets::{TypedBody, image_of};
use jvm_model::{Cause, Refusal};
use set_compile::sets_compile;
use std::alloc::Global;

/// The cause of a refusal of classes that do not stand together.
fn cause_of(cause: LinkCause) -> Cause
    ensures { result ≡ cause_of_of cause }
{
    match cause {
        LinkCause::Unresolved => Cause::Unresolved,
        LinkCause::Denied => Cause::Denied,
        LinkCause::WrongKind => Cause::WrongKind,
        LinkCause::BadOverride => Cause::BadOverride,
        LinkCause::MissingBody => Cause::MissingBody,
        LinkCause::BadInitialiser => Cause::BadInitialiser,
        LinkCause::NoMain => Cause::NoMain,
        LinkCause::Memory => Cause::Memory,
    }
}

/// The refusal of classes that do not stand together, or that have no entry.
fn refusal_of(why: LinkRefusal) -> Refusal
    ensures { result ≡ refusal_of_of why }
{
    Refusal {
        cause: cause_of(why.cause),
        file: why.file,
        member: why.member,
        pc: why.pc,
        value: why.value,
    }
}

/// The image of a closed set of classes.
pub(crate) fn infuse_closed(alloc: Global, set: &ClassSet) -> Result<Image, Refusal>
    ghost files: { List (List ℕ) }

    requires { IsClosedSet files set.now }
    ensures found { IfOk result (IsImageOf files) }
    ensures refused { IfErr result (RefusedOrMemory files) }
{
    match bodies(alloc, set) {
        Ok(bodies) => infuse_bodies(alloc, set, bodies.as_slice()),
        Err(why) => Err(refusal_of(why)),
    }
}

/// The image of a closed set of classes that stand together and have an entry.
fn infuse_bodies(alloc: Global, set: &ClassSet, bodies: &[Body]) -> Result<Image, Refusal>
    ghost files: { List (List ℕ) }

    requires { IsLinkedSet files set.now bodies.now }
    ensures found { IfOk result (IsImageOf files) }
    ensures refused { IfErr result (RefusedOrMemory files) }
{
    match typed_bodies(alloc, set, bodies) {
        Ok(typed) => infuse_typed(alloc, set, bodies, typed.as_slice()),
        Err(why) => Err(why),
    }
}

/// The image of a set whose bodies have these types.
fn infuse_typed(
    alloc: Global,
    set: &ClassSet,
    bodies: &[Body],
    typed: &[TypedBody<'_>],
) -> Result<Image, Refusal>
    ghost files: { List (List ℕ) }

    requires linked { IsLinkedSet files set.now bodies.now }
    requires typing { Typing set.now None }
    requires bodies { map (λ one. one.body.now) typed.now ≡ bodies.now }
    requires types { AllByRecursion (IsVerified set.now) typed.now }
    ensures found { IfOk result (IsImageOf files) }
    ensures refused { IfErr result (RefusedOrMemory files) }
{
    bodies_keep_limits();
    sets_compile();
    image_of(alloc, set, bodies, typed)
}
