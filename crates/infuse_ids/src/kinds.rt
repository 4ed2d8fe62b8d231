//! The types of fields.

ghost use Rattle.std.specs.Prelude.{◌≡◌, IfOk, IfErr};
ghost use Rattle.jvm_model.specs.Initialisers.{is_reference_kind, is_whole_kind};
ghost use Rattle.jvm_model.specs.InitialStatics.{kind_of as kind_of_field};
ghost use Rattle.jvm_model.specs.WidthsSlots.{passed_cells};
ghost use Rattle.infuse_ids.specs.declared.refusal.IdsRefusal.TheVariants.{Memory};

use crate::refusal::IdsRefusal;
use class_file::Member;
use class_pool::{DescriptorRefusal, Kind, Pool, read_field_descriptor};
use std::alloc::Global;

/// The type is a class or an array.
pub(crate) fn is_reference(kind: &Kind) -> bool
    ensures { result ≡ is_reference_kind kind.now }
{
    matches!(kind, Kind::Class(_) | Kind::Array { .. })
}

/// The type is int or a small type.
pub(crate) fn is_whole(kind: &Kind) -> bool
    ensures { result ≡ is_whole_kind kind.now }
{
    matches!(
        kind,
        Kind::Byte | Kind::Char | Kind::Short | Kind::Int | Kind::Boolean
    )
}

/// How many cells a number of the type takes: two of an int, one of a small type, and none of another type.
pub(crate) fn cells(kind: &Kind) -> u16
    ensures { result ≡ passed_cells kind.now }
{
    match kind {
        Kind::Int => 2,
        Kind::Byte | Kind::Char | Kind::Short | Kind::Boolean => 1,
        _ => 0,
    }
}

/// The type of a field, by its descriptor (JVMS 4.3.2); each class file's fields have one.
pub(crate) fn kind_of(alloc: Global, pool: &Pool, field: &Member) -> Result<Kind, IdsRefusal>
    ensures found { IfOk result (λ kind. kind ≡ kind_of_field pool.now field.now) }
    ensures memory { IfErr result (λ why. why ≡ Memory) }
{
    match pool.utf8(field.descriptor) {
        Some(text) => match read_field_descriptor(alloc, text) {
            Ok(kind) => Ok(kind),
            Err(DescriptorRefusal::BadDescriptor) => Ok(Kind::Int),
            Err(DescriptorRefusal::Memory) => Err(IdsRefusal::Memory),
        },
        None => Ok(Kind::Int),
    }
}
