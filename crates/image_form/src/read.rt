//! Reading the bytes of an infusion, table by table.

ghost use Rattle.std.specs.Prelude.{◌≡◌, ◌⊎◌, ◌≤◌, length, Ok, Err, IfOk, IfErr};
ghost use Rattle.image_form.specs.declared.record.Image.{Image as Record};
ghost use Rattle.image_form.specs.declared.refusal.FormRefusal.{FormRefusal as Refusal};
ghost use Rattle.image_form.specs.declared.refusal.FormRefusal.TheVariants.{Memory};
ghost use Rattle.byte_read.specs.Reading.{Answers};
ghost use Rattle.image_form.specs.Grammar.{most_types, IsEncoded};
ghost use Rattle.image_form.specs.Refused.{IsStartRefused, IsRefused, Shows, Gives};
ghost use Rattle.image_form.specs.Reading.{first_unmatched, parts_at, whole_of, version_at, versioned, start_of, image_of};

use crate::dispatch::first_unmatched;
use crate::methods::{methods_at, selectors_at};
use crate::part::u2_at;
use crate::record::Image;
use crate::refusal::FormRefusal;
use crate::statics::{main_at, static_cells_at, static_refs_at};
use crate::types::types_at;
use std::alloc::Global;

/// The parts after the version.
#[tactic(auto, unfolding(crate::specs::Reading::parts_at))]
fn parts_at(alloc: Global, bytes: &[u8]) -> Result<(Image, &[u8]), FormRefusal>
    ensures value { Shows (λ x. (x.0, x.1.now)) result (parts_at bytes.now) }
    ensures count { IfOk result (λ x. length x.0.types ≤ most_types) }
{
    let (types, rest) = types_at(alloc, bytes)?;
    let (selectors, rest) = selectors_at(alloc, rest)?;
    let (methods, rest) = methods_at(alloc, types.as_slice(), rest)?;
    let (static_refs, rest) = static_refs_at(rest)?;
    let (static_cells, rest) = static_cells_at(alloc, rest)?;
    let (main, rest) = main_at(methods.as_slice(), rest)?;
    let image = Image {
        version: 1,
        types,
        selectors,
        methods,
        static_refs,
        static_cells,
        main,
    };
    Ok((image, rest))
}

/// The index of the first type of an image with a row that is not matched.
fn unmatched_in(image: &Image) -> Option<u16>
    requires { length image.now.types ≤ most_types }
    ensures { result ≡ first_unmatched image.now.selectors image.now.methods 0 image.now.types }
{
    first_unmatched(
        image.selectors.as_slice(),
        image.methods.as_slice(),
        image.types.as_slice(),
    )
}

/// The image with these bytes after the version, all of them.
#[tactic(auto, unfolding(crate::specs::Reading::whole_of))]
fn whole_of(alloc: Global, bytes: &[u8]) -> Result<Image, FormRefusal>
    ensures { Gives result (whole_of bytes.now) }
{
    let (image, rest) = parts_at(alloc, bytes)?;
    if let Some(index) = unmatched_in(&image) {
        return Err(FormRefusal::BadTable { table: 0, index });
    }
    if !rest.is_empty() {
        return Err(FormRefusal::TrailingBytes);
    }
    Ok(image)
}

/// The version, which is 1, and the bytes after it.
#[tactic(auto, unfolding(crate::specs::Reading::version_at))]
fn version_at(bytes: &[u8]) -> Result<(u16, &[u8]), FormRefusal>
    ensures { Answers (λ x. (x.0, x.1.now)) result (version_at bytes.now) }
{
    let (version, rest) = u2_at(bytes)?;
    if version != 1 {
        return Err(FormRefusal::FormVersion { version });
    }
    Ok((version, rest))
}

/// The image with these bytes after the first four.
#[tactic(auto, unfolding(crate::specs::Reading::versioned, crate::specs::Reading::version_at), using(crate::proofs::faults::AtOnce::versioned_fails, crate::proofs::faults::AtOnce::versioned_goes_on))]
fn versioned(alloc: Global, bytes: &[u8]) -> Result<Image, FormRefusal>
    ensures value { Gives result (versioned bytes.now) }
    ensures version { (why : Refusal) → version_at bytes.now ≡ Err why → result ≡ Err why }
{
    let (_, rest) = version_at(bytes)?;
    whole_of(alloc, rest)
}

/// The image, or the first rule that the bytes fail.
#[tactic(auto, unfolding(crate::specs::Reading::image_of, crate::specs::Reading::start_of))]
fn image_of(alloc: Global, bytes: &[u8]) -> Result<Image, FormRefusal>
    ensures value { Gives result (image_of bytes.now) }
    ensures start { (why : Refusal) → start_of bytes.now ≡ Err why → result ≡ Err why }
{
    match bytes.strip_prefix(b"DJIN") {
        Some(rest) => versioned(alloc, rest),
        None => Err(FormRefusal::NotInfusion),
    }
}

/// Reads the bytes of an infusion, all of them. Where bytes are refused, the cause is the first rule that
/// they fail.
pub fn read_image(alloc: Global, bytes: &[u8]) -> Result<Image, FormRefusal>
    // What is read is an image of the grammar, and the bytes are its encoding.
    ensures found { IfOk result (λ image. IsEncoded bytes.now image) }

    // The encoding of an image is read, unless memory runs out.
    ensures only { (image : Record) → IsEncoded bytes.now image → Gives result (Ok image) }

    // Other bytes are refused for the cause that they give, unless memory runs out.
    ensures refused { IfErr result (λ why. (why ≡ Memory) ⊎ IsRefused bytes.now why) }
    ensures refused_only { (why : Refusal) → IsRefused bytes.now why → Gives result (Err why) }

    // What the magic and the version are refused for is the refusal at once.
    ensures at_once { (why : Refusal) → IsStartRefused bytes.now why → result ≡ Err why }

    // Which image it is, or which refusal.
    ensures exact { Gives result (image_of bytes.now) }
{
    image_of(alloc, bytes)
}
