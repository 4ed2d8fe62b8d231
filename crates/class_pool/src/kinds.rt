//! The types in a descriptor (JVMS 4.3.2).

ghost use Rattle.std.specs.Prelude.{◌≡◌, ◌↔◌, Some, Err, IfOk};
ghost use Rattle.class_pool.specs.declared.descriptor.Kind.{Kind as FieldType};
ghost use Rattle.class_pool.specs.Descriptors.{IsFieldText};
ghost use Rattle.class_pool.specs.DescriptorReading.{Reads, Answers, class_at, base_at, plain_kind, kind_with, kind_at, field_of};

use crate::descriptor::{Base, DescriptorRefusal, Kind};
use crate::pool::Text;
use crate::scan::{MOST_DIMS, brackets, is_field_text, name_size, plain_base};
use item_list::Items;
use std::alloc::Global;

/// The class name at the prefix, and what follows its `;`.
#[tactic(auto, unfolding(crate::specs::DescriptorReading::class_at))]
fn class_at(alloc: Global, text: &[u8]) -> Result<(Text, &[u8]), DescriptorRefusal>
    ensures { Reads (λ x. (x.0, x.1.now)) result (class_at text.now) }
{
    match name_size(text) {
        Some(size) => {
            let name = Vec::from_slice(alloc, &text[..size])?;
            Ok((Items::from_vec(name), &text[size + 1..]))
        }
        None => Err(DescriptorRefusal::BadDescriptor),
    }
}

/// The type at the prefix that is no array, and the bytes after it.
#[tactic(auto, unfolding(crate::specs::DescriptorReading::base_at))]
fn base_at(alloc: Global, text: &[u8]) -> Result<(Base, &[u8]), DescriptorRefusal>
    ensures { Reads (λ x. (x.0, x.1.now)) result (base_at text.now) }
{
    match text {
        [] => Err(DescriptorRefusal::BadDescriptor),
        [b'L', rest @ ..] => {
            let (name, rest) = class_at(alloc, rest)?;
            Ok((Base::Class(name), rest))
        }
        [letter, rest @ ..] => match plain_base(*letter) {
            Some(base) => Ok((base, rest)),
            None => Err(DescriptorRefusal::BadDescriptor),
        },
    }
}

/// The type itself.
fn plain_kind(base: Base) -> Kind
    ensures { result ≡ plain_kind base }
{
    match base {
        Base::Byte => Kind::Byte,
        Base::Char => Kind::Char,
        Base::Double => Kind::Double,
        Base::Float => Kind::Float,
        Base::Int => Kind::Int,
        Base::Long => Kind::Long,
        Base::Short => Kind::Short,
        Base::Boolean => Kind::Boolean,
        Base::Class(name) => Kind::Class(name),
    }
}

/// The type with so many dimensions.
fn kind_with(dims: u8, base: Base) -> Kind
    ensures { result ≡ kind_with dims base }
{
    if dims == 0 {
        return plain_kind(base);
    }
    Kind::Array { dims, of: base }
}

/// The type at the prefix, and the bytes after it.
#[tactic(auto, unfolding(crate::specs::DescriptorReading::kind_at))]
pub(crate) fn kind_at(alloc: Global, text: &[u8]) -> Result<(Kind, &[u8]), DescriptorRefusal>
    ensures { Reads (λ x. (x.0, x.1.now)) result (kind_at text.now) }
{
    let dims = brackets(text);
    if dims > MOST_DIMS {
        return Err(DescriptorRefusal::BadDescriptor);
    }
    let (base, rest) = base_at(alloc, &text[dims..])?;
    Ok((kind_with(dims as u8, base), rest))
}

/// The type that all of the text names.
#[tactic(auto, unfolding(crate::specs::DescriptorReading::field_of))]
pub(crate) fn field_of(alloc: Global, text: &[u8]) -> Result<Kind, DescriptorRefusal>
    ensures { Answers result (field_of text.now) }
{
    let (kind, rest) = kind_at(alloc, text)?;
    if !rest.is_empty() {
        return Err(DescriptorRefusal::BadDescriptor);
    }
    Ok(kind)
}

/// Reads the descriptor of a field (JVMS 4.3.2), all of the text.
pub fn read_field_descriptor(alloc: Global, text: &[u8]) -> Result<Kind, DescriptorRefusal>
    // What is read is a type, and the text is its descriptor.
    ensures found { IfOk result (λ kind. IsFieldText text.now kind) }

    // The descriptor of a type is read, unless memory runs out.
    ensures only { (kind : FieldType) → IsFieldText text.now kind → Answers result (Some kind) }

    // Exactly the other texts are refused, before memory is asked for.
    ensures refused { (result ≡ Err DescriptorRefusal.BadDescriptor) ↔ ((kind : FieldType) → IsFieldText text.now kind → ⊥) }

    // Which type it is, or none.
    ensures exact { Answers result (field_of text.now) }
{
    if !is_field_text(text) {
        return Err(DescriptorRefusal::BadDescriptor);
    }
    field_of(alloc, text)
}
