//! The types of fields, as initial values see them.

ghost use Rattle.std.specs.Prelude.{◌≡◌, option_and_then, IfOk, IfErr};
ghost use Rattle.class_pool.specs.Pool.{utf8_at};
ghost use Rattle.class_pool.specs.DescriptorReading.{field_of};
ghost use Rattle.jvm_model.specs.Initialisers.{is_whole_kind as is_whole, is_reference_kind as is_reference};
ghost use Rattle.body_make.specs.Refusals.{no_memory};

use crate::refusal::{LinkRefusal, NO_MEMORY};
use class_pool::{DescriptorRefusal, Kind, Pool, read_field_descriptor};
use std::alloc::Global;

/// The type is int or a small type.
pub(crate) fn is_whole_kind(kind: &Kind) -> bool
    ensures { result ≡ is_whole kind.now }
{
    matches!(
        kind,
        Kind::Byte | Kind::Char | Kind::Short | Kind::Int | Kind::Boolean
    )
}

/// The type is a class or an array.
pub(crate) fn is_reference_kind(kind: &Kind) -> bool
    ensures { result ≡ is_reference kind.now }
{
    matches!(kind, Kind::Class(_) | Kind::Array { .. })
}

/// The type that the text at an index names as a field's descriptor.
pub(crate) fn kind_at(alloc: Global, pool: &Pool, index: u16) -> Result<Option<Kind>, LinkRefusal>
    ensures found { IfOk result (λ kind. kind ≡ option_and_then field_of (utf8_at pool.now index)) }
    ensures memory { IfErr result (λ why. why ≡ no_memory) }
{
    match pool.utf8(index) {
        Some(text) => match read_field_descriptor(alloc, text) {
            Ok(kind) => Ok(Some(kind)),
            Err(DescriptorRefusal::BadDescriptor) => Ok(None),
            Err(DescriptorRefusal::Memory) => Err(NO_MEMORY),
        },
        None => Ok(None),
    }
}
