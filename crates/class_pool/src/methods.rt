//! The descriptor of a method (JVMS 4.3.3).

ghost use Rattle.std.specs.Prelude.{◌≡◌, ◌↔◌, Some, Err, length, IfOk};
ghost use Rattle.class_pool.specs.declared.descriptor.Descriptor.{Descriptor as Record};
ghost use Rattle.class_pool.specs.Descriptors.{IsMethodText};
ghost use Rattle.class_pool.specs.DescriptorReading.{Reads, Answers, params_at, result_of, method_of};

use crate::descriptor::{Descriptor, DescriptorRefusal, Kind};
use crate::kinds::{field_of, kind_at};
use crate::scan::{after_close, is_method_text};
use item_list::Items;
use std::alloc::Global;

/// The types of the parameters, and what follows their `)`.
fn params_at(alloc: Global, text: &[u8]) -> Result<(Vec<Kind>, &[u8]), DescriptorRefusal>
    ensures { Reads (λ x. (x.0.items, x.1.now)) result (params_at (length text.now) text.now) }
{
    let mut params = Vec::new(alloc);
    let mut rest = text;
    // Each parameter has a byte at least.
    for _ in 0..text.len() {
        if let Some(suffix) = after_close(rest) {
            return Ok((params, suffix));
        }
        let (kind, suffix) = kind_at(alloc, rest)?;
        params.push(kind)?;
        rest = suffix;
    }
    Err(DescriptorRefusal::BadDescriptor)
}

/// The type of the result that all of the text names, none for `V`.
#[tactic(auto, unfolding(crate::specs::DescriptorReading::result_of))]
fn result_of(alloc: Global, text: &[u8]) -> Result<Option<Kind>, DescriptorRefusal>
    ensures { Answers result (result_of text.now) }
{
    match text {
        [b'V'] => Ok(None),
        [] | [b'V', ..] => Err(DescriptorRefusal::BadDescriptor),
        _ => Ok(Some(field_of(alloc, text)?)),
    }
}

/// The descriptor that all of the text is.
#[tactic(auto, unfolding(crate::specs::DescriptorReading::method_of))]
fn method_of(alloc: Global, text: &[u8]) -> Result<Descriptor, DescriptorRefusal>
    ensures { Answers result (method_of text.now) }
{
    match text {
        [b'(', rest @ ..] => {
            let (params, rest) = params_at(alloc, rest)?;
            let result = result_of(alloc, rest)?;
            Ok(Descriptor {
                params: Items::from_vec(params),
                result,
            })
        }
        _ => Err(DescriptorRefusal::BadDescriptor),
    }
}

/// Reads the descriptor of a method (JVMS 4.3.3), all of the text. How many parameters there may be
/// is not asked here.
pub fn read_descriptor(alloc: Global, text: &[u8]) -> Result<Descriptor, DescriptorRefusal>
    // What is read is a descriptor, and this is its text.
    ensures found { IfOk result (λ descriptor. IsMethodText text.now descriptor) }

    // The text of a descriptor is read, unless memory runs out.
    ensures only { (descriptor : Record) → IsMethodText text.now descriptor → Answers result (Some descriptor) }

    // Exactly the other texts are refused, before memory is asked for.
    ensures refused { (result ≡ Err DescriptorRefusal.BadDescriptor) ↔ ((descriptor : Record) → IsMethodText text.now descriptor → ⊥) }

    // Which descriptor it is, or none.
    ensures exact { Answers result (method_of text.now) }
{
    if !is_method_text(text) {
        return Err(DescriptorRefusal::BadDescriptor);
    }
    method_of(alloc, text)
}
