//! The check of an image, and what a checked image lends.

ghost use Rattle.std.specs.Prelude.{◌≡◌, ◌≢◌, ◌≤◌, ◌⊎◌, true, IfOk, IfErr, OnOk, IsSome, Some, length, slice_get, ◌-◌};
ghost use Rattle.std.specs.List.{AllByRecursion};
ghost use Rattle.image_form.specs.declared.record.Image.{Image as Record};
ghost use Rattle.image_form.specs.declared.record.Method.{Method};
ghost use Rattle.image_form.specs.Grammar.{IsImage};
ghost use Rattle.image_check.specs.BuiltForm.{has_built_form};
ghost use Rattle.image_check.specs.declared.refusal.CheckCause.TheVariants.{Memory, Unbuilt};
ghost use Rattle.image_check.specs.Checked.{IsCheckedMethod, IsChecked, IsBuiltMethod, IsBuilt};
ghost use Rattle.image_check.specs.Dimensions.{AreDimensions};
ghost use Rattle.image_check.specs.Refused.{IsFault, IsUnbuiltAt, FailsThere, IsUnbuiltThere, IsRefused};

use crate::built::first_unbuilt;
use crate::built_form::has_built_form;
use crate::dimensions::list_dimensions;
use crate::flow::follow_depths;
use crate::ids::test_ids;
use crate::jumps::test_targets;
use crate::listing::list_insns;
use crate::names::type_name;
use crate::refusal::{CheckCause, CheckRefusal, Fault};
use image_form::{Image, Method};
use library::FIRST_OWN;
use std::alloc::Global;
use std::marker::Model;

/// An image that keeps the rules, each of whose instructions the machine runs. Contracts see the image.
#[derive(Drop)]
pub struct Checked {
    image: Image,
}

impl Model for Checked {
    ghost use Rattle.image_form.specs.declared.record.Image.{Image};
    ghost use Rattle.image_form.specs.Grammar.{IsImage};
    ghost use Rattle.image_check.specs.Checked.{IsChecked, IsBuilt};

    ghost Value = { Image };

    ghost view = { λ checked. checked.image };

    ghost invariant = { λ checked. IsImage checked.image × IsChecked checked.image × IsBuilt checked.image };
}

/// Tests a method: its code, its targets, its ids by the table of the dimensions of the types, and its
/// depths.
fn check_method(alloc: Global, image: &Image, table: &[u8], method: &Method) -> Result<(), Fault>
    requires table { AreDimensions image.now.types table.now }
    requires some { 1 ≤ length method.now.code }
    requires small { length method.now.code ≤ 65535 }
    ensures checked { OnOk result (IsCheckedMethod image.now method.now) }
    ensures refused { IfErr result (λ fault. IsFault image.now method.now fault.cause fault.pc) }
{
    let insns = list_insns(alloc, method)?;
    test_targets(method, &insns)?;
    test_ids(image, table, method, &insns)?;
    follow_depths(alloc, image, method)
}

/// Tests that the machine runs each instruction of a method.
fn test_built(alloc: Global, method: &Method) -> Result<(), Fault>
    requires { length method.now.code ≤ 65535 }
    ensures built { OnOk result (IsBuiltMethod method.now) }
    ensures refused { (image : Record) → IfErr result (λ fault. IsFault image method.now fault.cause fault.pc ⊎ ((fault.cause ≡ Unbuilt) × IsUnbuiltAt method.now fault.pc)) }
{
    let insns = list_insns(alloc, method)?;
    match first_unbuilt(method, &insns) {
        Some(pc) => Err(Fault {
            cause: CheckCause::Unbuilt,
            pc,
        }),
        None => Ok(()),
    }
}

/// The refusal of an image for the fault of a method; want of memory has no place.
fn refusal_of(fault: Fault, method: u16) -> CheckRefusal
    ensures cause { result.cause ≡ fault.cause }
    ensures place { fault.cause ≢ Memory → (result.method ≡ method) × (result.pc ≡ fault.pc) }
    ensures memory { fault.cause ≡ Memory → (result.method ≡ 0) × (result.pc ≡ 0) }
{
    match fault.cause {
        CheckCause::Memory => CheckRefusal {
            cause: CheckCause::Memory,
            method: 0,
            pc: 0,
        },
        cause => CheckRefusal {
            cause,
            method,
            pc: fault.pc,
        },
    }
}

/// The image is not of the form that the machine runs.
const NO_FORM: CheckRefusal = CheckRefusal {
    cause: CheckCause::Unbuilt,
    method: 0,
    pc: 0,
};

/// Tests each method, by its id.
fn check_methods(alloc: Global, image: &Image) -> Result<(), CheckRefusal>
    requires image { IsImage image.now }
    requires form { has_built_form image.now ≡ true }
    ensures checked { OnOk result (IsChecked image.now) }
    ensures refused { IfErr result (λ refusal. (refusal.cause ≡ Memory) ⊎ FailsThere image.now refusal) }
    ensures memory { IfErr result (λ refusal. refusal.cause ≡ Memory → (refusal.method ≡ 0) × (refusal.pc ≡ 0)) }
{
    let table = match list_dimensions(alloc, image.types.as_slice()) {
        Ok(table) => table,
        Err(fault) => return Err(refusal_of(fault, 0)),
    };
    for (index, method) in image.methods.as_slice().iter().enumerate() {
        if let Err(fault) = check_method(alloc, image, table.as_slice(), method) {
            return Err(refusal_of(fault, FIRST_OWN + index as u16));
        }
    }
    Ok(())
}

/// Tests that the machine runs each method of an image that keeps the rules.
fn test_methods(alloc: Global, image: &Image) -> Result<(), CheckRefusal>
    requires image { IsImage image.now }
    requires form { has_built_form image.now ≡ true }
    requires checked { IsChecked image.now }
    ensures built { OnOk result (AllByRecursion IsBuiltMethod image.now.methods) }
    ensures refused { IfErr result (λ refusal. (refusal.cause ≡ Memory) ⊎ (FailsThere image.now refusal ⊎ IsUnbuiltThere image.now refusal)) }
    ensures memory { IfErr result (λ refusal. refusal.cause ≡ Memory → (refusal.method ≡ 0) × (refusal.pc ≡ 0)) }
{
    for (index, method) in image.methods.as_slice().iter().enumerate() {
        if let Err(fault) = test_built(alloc, method) {
            return Err(refusal_of(fault, FIRST_OWN + index as u16));
        }
    }
    Ok(())
}

/// Tests an image of the form that the machine runs: first the rules of each method, and then that the
/// machine runs each instruction.
fn test_image(alloc: Global, image: &Image) -> Result<(), CheckRefusal>
    requires image { IsImage image.now }
    requires form { has_built_form image.now ≡ true }
    ensures checked { OnOk result (IsChecked image.now) }
    ensures built { OnOk result (IsBuilt image.now) }
    ensures refused { IfErr result (λ refusal. (refusal.cause ≡ Memory) ⊎ IsRefused image.now refusal) }
    ensures memory { IfErr result (λ refusal. refusal.cause ≡ Memory → (refusal.method ≡ 0) × (refusal.pc ≡ 0)) }
{
    check_methods(alloc, image)?;
    test_methods(alloc, image)
}

/// Checks an image. It is answered where it has the form that the machine runs, each method keeps the
/// rules and the machine runs each of its instructions; else it is given back, with its form as the
/// cause and no place, or with a rule that fails and where, or, where all rules hold, with the place of
/// an instruction that the machine does not run.
pub fn check(alloc: Global, image: Image) -> Result<Checked, (Image, CheckRefusal)>
    requires { IsImage image }
    ensures found { IfOk result (λ checked. (checked ≡ image) × IsChecked image × IsBuilt image) }
    ensures only { IsChecked image → IsBuilt image → IfErr result (λ refused. refused.1.cause ≡ Memory) }
    ensures refused { IfErr result (λ refused. (refused.0 ≡ image) × ((refused.1.cause ≡ Memory) ⊎ IsRefused image refused.1)) }
    ensures memory { IfErr result (λ refused. refused.1.cause ≡ Memory → (refused.1.method ≡ 0) × (refused.1.pc ≡ 0)) }
{
    if !has_built_form(&image) {
        return Err((image, NO_FORM));
    }
    match test_image(alloc, &image) {
        Ok(()) => Ok(Checked { image }),
        Err(refusal) => Err((image, refusal)),
    }
}

impl Checked {
    ghost use Rattle.std.specs.Prelude.{◌<◌};
    ghost use Rattle.image_form.specs.Library.{name_of};

    /// The whole image.
    pub fn image(&self) -> &Image
        ensures all { result.now ≡ self.now }
        ensures image { IsImage self.now }
        ensures checked { IsChecked self.now }
        ensures built { IsBuilt self.now }
    {
        &self.image
    }

    /// The code of a method that has code: the infusion's own bytes.
    pub fn code(&self, method: u16) -> &[u8]
        requires own { 32 ≤ method }
        requires there { IsSome (slice_get self.now.methods (method - 32)) }
        ensures { (entry : Method) → slice_get self.now.methods (method - 32) ≡ Some entry → result.now ≡ entry.code }
    {
        self.image.methods.as_slice()[usize::from(method - FIRST_OWN)]
            .code
            .as_slice()
    }

    /// The bytes of the name of a class of the library or of the image; those of what is no class are none.
    pub fn name_of(&self, class: u16) -> &[u8]
        ensures { result.now ≡ name_of self.now class }
    {
        type_name(&self.image, class)
    }
}
