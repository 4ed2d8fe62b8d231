//! The texts of descriptors (JVMS 4.3), and the numbers of selectors by them.

ghost use Rattle.std.specs.Prelude.{◌≡◌, ◌<◌, [], ◌∷◌, ◌++◌, length, replicate, OnOk, IfOk};
ghost use Rattle.std.specs.List.{flat_map};
ghost use Rattle.class_pool.specs.Descriptors.{base_text, kind_text, result_text, descriptor_text as text_of_descriptor};
ghost use Rattle.jvm_model.specs.ImageNumbering.{ids_of};
ghost use Rattle.jvm_model.specs.NumberedIds.{numbers_of};

use body_form::MethodUse;
use class_pool::{Base, Descriptor, Kind};
use jvm_model::Ids;
use std::alloc::{AllocError, Global};

/// Adds the name of a class in `L` and `;`.
#[tactic(auto, using(crate::proofs::DescriptorTexts::class_added))]
fn push_class(text: &mut Vec<u8>, name: &[u8]) -> Result<(), AllocError>
    ensures { OnOk result (text.new.items ≡ text.old.items ++ 76 ∷ (name.now ++ 59 ∷ [])) }
{
    text.push(b'L')?;
    text.extend_from_slice(name)?;
    text.push(b';')?;
    Ok(())
}

/// Adds a byte.
fn push_byte(text: &mut Vec<u8>, byte: u8) -> Result<(), AllocError>
    ensures { OnOk result (text.new.items ≡ text.old.items ++ byte ∷ []) }
{
    text.push(byte)?;
    Ok(())
}

/// Adds what an array is an array of.
fn push_base(text: &mut Vec<u8>, base: &Base) -> Result<(), AllocError>
    ensures { OnOk result (text.new.items ≡ text.old.items ++ base_text base.now) }
{
    match base {
        Base::Byte => push_byte(text, b'B'),
        Base::Char => push_byte(text, b'C'),
        Base::Double => push_byte(text, b'D'),
        Base::Float => push_byte(text, b'F'),
        Base::Int => push_byte(text, b'I'),
        Base::Long => push_byte(text, b'J'),
        Base::Short => push_byte(text, b'S'),
        Base::Boolean => push_byte(text, b'Z'),
        Base::Class(name) => push_class(text, name.as_slice()),
    }
}

/// Adds a `[` for each dimension.
fn push_dims(text: &mut Vec<u8>, dims: u8) -> Result<(), AllocError>
    ensures { OnOk result (text.new.items ≡ text.old.items ++ replicate dims 91) }
{
    for _ in 0..dims {
        match push_byte(text, b'[') {
            Ok(()) => {}
            Err(why) => return Err(why),
        }
    }
    Ok(())
}

/// Adds an array type.
#[tactic(auto, using(crate::proofs::DescriptorTexts::array_added))]
fn push_array(text: &mut Vec<u8>, dims: u8, base: &Base) -> Result<(), AllocError>
    ensures { OnOk result (text.new.items ≡ text.old.items ++ (replicate dims 91 ++ base_text base.now)) }
{
    push_dims(text, dims)?;
    push_base(text, base)?;
    Ok(())
}

/// Adds a type.
fn push_kind(text: &mut Vec<u8>, kind: &Kind) -> Result<(), AllocError>
    ensures { OnOk result (text.new.items ≡ text.old.items ++ kind_text kind.now) }
{
    match kind {
        Kind::Byte => push_byte(text, b'B'),
        Kind::Char => push_byte(text, b'C'),
        Kind::Double => push_byte(text, b'D'),
        Kind::Float => push_byte(text, b'F'),
        Kind::Int => push_byte(text, b'I'),
        Kind::Long => push_byte(text, b'J'),
        Kind::Short => push_byte(text, b'S'),
        Kind::Boolean => push_byte(text, b'Z'),
        Kind::Class(name) => push_class(text, name.as_slice()),
        Kind::Array { dims, of } => push_array(text, *dims, of),
    }
}

/// Adds types.
fn push_kinds(text: &mut Vec<u8>, kinds: &[Kind]) -> Result<(), AllocError>
    ensures { OnOk result (text.new.items ≡ text.old.items ++ flat_map kind_text kinds.now) }
{
    for kind in kinds {
        match push_kind(text, kind) {
            Ok(()) => {}
            Err(why) => return Err(why),
        }
    }
    Ok(())
}

/// Adds the type of a result, or `V`.
fn push_result(text: &mut Vec<u8>, result_kind: &Option<Kind>) -> Result<(), AllocError>
    ensures { OnOk result (text.new.items ≡ text.old.items ++ result_text result_kind.now) }
{
    match result_kind {
        Some(kind) => push_kind(text, kind),
        None => push_byte(text, b'V'),
    }
}

/// The text of a descriptor.
#[tactic(auto, using(crate::proofs::DescriptorTexts::descriptor_added))]
fn descriptor_text(alloc: Global, descriptor: &Descriptor) -> Result<Vec<u8>, AllocError>
    ensures { IfOk result (λ text. text.items ≡ text_of_descriptor descriptor.now) }
{
    let mut text = Vec::new(alloc);
    push_byte(&mut text, b'(')?;
    push_kinds(&mut text, descriptor.params.as_slice())?;
    push_byte(&mut text, b')')?;
    push_result(&mut text, &descriptor.result)?;
    Ok(text)
}

/// The number of the selector of a method that a call names.
pub fn selector_number(alloc: Global, ids: &Ids, used: &MethodUse) -> Result<u16, AllocError>
    requires { length ids.now.selectors < 65536 }
    ensures { IfOk result (λ number. number ≡ (ids_of (numbers_of ids.now)).selector used.now) }
{
    let descriptor = descriptor_text(alloc, &used.descriptor)?;
    match ids
        .selectors
        .position_of(alloc, used.name.as_slice(), descriptor.as_slice())?
    {
        Some(position) => Ok(position as u16),
        None => Ok(0),
    }
}
