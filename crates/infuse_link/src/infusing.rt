//! From a set of class files to its image.

ghost use Rattle.std.specs.Prelude.{◌≡◌, ◌⊎◌, ℕ, List, map, Some, None, Ok, Err, IfOk, IfErr};
ghost use Rattle.image_form.specs.declared.record.Image.{Image as SetImage};
ghost use Rattle.jvm_model.specs.declared.refusal.Cause.TheVariants as cause;
ghost use Rattle.jvm_model.specs.declared.refusal.Refusal.{Refusal as Reason};
ghost use Rattle.jvm_model.specs.Phases.{SetSize};
ghost use Rattle.set_verdict.specs.Verdict.{IsImageOf, IsRefused};
ghost use Rattle.infuse_link.specs.Infused.{Gives, RefusedOrMemory};

use crate::linking::infuse_closed;
use crate::sets::{closed_set, read_files, test_classes, test_size};
use image_form::Image;
use jvm_model::Refusal;
use std::alloc::Global;

/// Turns a set of class files into the image of the set. A refusal is the first one in the order of `Cause`: a file is
/// named by its place in the set, a method by its place in its class, an instruction by its pc.
pub fn infuse(alloc: Global, files: &[Vec<u8>]) -> Result<Image, Refusal>
    // What is answered is the image of the set, and the image of an accepted set is answered.
    ensures found { IfOk result (IsImageOf (map (λ v. v.items) files.now)) }
    ensures only { (image : SetImage) → IsImageOf (map (λ v. v.items) files.now) image → Gives result (Ok image) }

    // Which refusal it is; that of a set that is too large comes before memory is asked for.
    ensures refused { IfErr result (λ why. (why.cause ≡ cause.Memory) ⊎ IsRefused (map (λ v. v.items) files.now) why) }
    ensures refused_only { (why : Reason) → IsRefused (map (λ v. v.items) files.now) why → Gives result (Err why) }
    ensures too_large { (why : Reason) → SetSize (map (λ v. v.items) files.now) (Some why) → result ≡ Err why }
{
    infuse_set(alloc, files)
}

/// The image of a set of files.
fn infuse_set(alloc: Global, files: &[Vec<u8>]) -> Result<Image, Refusal>
    ensures found { IfOk result (IsImageOf (map (λ v. v.items) files.now)) }
    ensures refused { IfErr result (RefusedOrMemory (map (λ v. v.items) files.now)) }
    ensures too_large { (why : Reason) → SetSize (map (λ v. v.items) files.now) (Some why) → result ≡ Err why }
{
    match test_size(files) {
        Ok(()) => infuse_sized(alloc, files),
        Err(why) => Err(why),
    }
}

/// The image of a set of files that is not too large.
fn infuse_sized(alloc: Global, files: &[Vec<u8>]) -> Result<Image, Refusal>
    ghost bytes: { List (List ℕ) }

    requires are { map (λ v. v.items) files.now ≡ bytes }
    requires size { SetSize bytes None }
    ensures found { IfOk result (IsImageOf bytes) }
    ensures refused { IfErr result (RefusedOrMemory bytes) }
{
    let classes = match read_files(alloc, files) {
        Ok(classes) => classes,
        Err(why) => return Err(why),
    };
    match test_classes(alloc, classes.as_slice()) {
        Ok(()) => {}
        Err(why) => return Err(why),
    }
    match closed_set(alloc, classes) {
        Ok(set) => infuse_closed(alloc, &set),
        Err(why) => Err(why),
    }
}
