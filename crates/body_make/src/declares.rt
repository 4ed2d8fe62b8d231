//! What a class declares, beside the methods above it and in its initial values.

ghost use Rattle.std.specs.Prelude.{◌≡◌, ◌⊎◌, ◌≤◌, ◌<◌, ◌-◌, ◌+◌, None, Some, length, slice_get, OnOk, IfErr, IfSome};
ghost use Rattle.class_tree.specs.Set.{IsClass};
ghost use Rattle.jvm_model.specs.Overrides.{hides_interface as hides_interface_of, lacks_bodies as lacks_bodies_of};
ghost use Rattle.jvm_model.specs.Phases.{refusal_of_insn};
ghost use Rattle.jvm_model.specs.Linking.{declared_refusal, refuse_where};
ghost use Rattle.jvm_model.specs.declared.refusal.Cause.TheVariants as cause;
ghost use Rattle.body_make.specs.Refusals.{no_memory, refusal_of};

use crate::constants::test_constants;
use crate::initialisers::test_initialisers;
use crate::overrides::test_overrides;
use crate::places::refusal_at;
use crate::refusal::{LinkCause, LinkRefusal};
use crate::uppers::{hides_interface, lacks_bodies};
use class_file::ClassFile;
use class_tree::ClassSet;
use std::alloc::Global;

/// Tests what the class selects for the methods of the interfaces that it implements.
#[tactic(auto, using(crate::proofs::Refusing::refused_own, crate::proofs::Refusing::passed_own))]
fn test_interfaces(set: &ClassSet, class: u16) -> Result<(), LinkRefusal>
    requires own { 32 ≤ class }
    requires within { IsClass set.now class }
    ensures passed { OnOk result (refuse_where (hides_interface_of set.now (32 + (class - 32))) (refusal_of_insn cause.BadOverride (class - 32) 0 0 0) ≡ None) }
    ensures refused { IfErr result (λ why. refuse_where (hides_interface_of set.now (32 + (class - 32))) (refusal_of_insn cause.BadOverride (class - 32) 0 0 0) ≡ Some (refusal_of why)) }
{
    if hides_interface(set, class) {
        return Err(refusal_at(LinkCause::BadOverride, class, 0, 0, 0));
    }
    Ok(())
}

/// Tests whether the class has bodies for the methods that it must have.
#[tactic(auto, using(crate::proofs::Refusing::refused_own, crate::proofs::Refusing::passed_own))]
fn test_bodies(set: &ClassSet, class: u16) -> Result<(), LinkRefusal>
    requires own { 32 ≤ class }
    requires within { IsClass set.now class }
    ensures passed { OnOk result (refuse_where (lacks_bodies_of set.now (32 + (class - 32))) (refusal_of_insn cause.MissingBody (class - 32) 0 0 0) ≡ None) }
    ensures refused { IfErr result (λ why. refuse_where (lacks_bodies_of set.now (32 + (class - 32))) (refusal_of_insn cause.MissingBody (class - 32) 0 0 0) ≡ Some (refusal_of why)) }
{
    if lacks_bodies(set, class) {
        return Err(refusal_at(LinkCause::MissingBody, class, 0, 0, 0));
    }
    Ok(())
}

/// Tests what the class of a file declares.
fn test_file(alloc: Global, set: &ClassSet, class: u16, file: &ClassFile) -> Result<(), LinkRefusal>
    requires own { 32 ≤ class }
    requires within { IsClass set.now class }
    requires counted { length file.now.methods ≤ 65535 }
    ensures passed { OnOk result (declared_refusal set.now (class - 32) file.now ≡ None) }
    ensures refused { IfErr result (λ why. (why ≡ no_memory) ⊎ (declared_refusal set.now (class - 32) file.now ≡ Some (refusal_of why))) }
{
    test_overrides(set, class, file, file.methods.as_slice())?;
    test_interfaces(set, class)?;
    test_bodies(set, class)?;
    test_constants(alloc, class, file, file.fields.as_slice())?;
    test_initialisers(alloc, class, file, file.methods.as_slice())
}

/// Tests what the class that has a file declares: how its methods stand below those above it, what it selects
/// for the methods of interfaces and for abstract methods, the constants of its static fields, and its
/// initialiser.
pub(crate) fn test_class(alloc: Global, set: &ClassSet, class: u16) -> Result<(), LinkRefusal>
    requires own { 32 ≤ class }
    requires within { class - 32 < length set.now }
    ensures passed { OnOk result (IfSome (slice_get set.now (class - 32)) (λ file. declared_refusal set.now (class - 32) file ≡ None)) }
    ensures refused { IfErr result (λ why. (why ≡ no_memory) ⊎ IfSome (slice_get set.now (class - 32)) (λ file. declared_refusal set.now (class - 32) file ≡ Some (refusal_of why))) }
{
    test_file(alloc, set, class, set.file(class))
}
