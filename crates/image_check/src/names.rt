//! The names of types by their ids.

ghost use Rattle.std.specs.Prelude.{◌≡◌};
ghost use Rattle.image_form.specs.Library.{name_of as name_in};

use image_form::{Image, TypeEntry};
use library::{FIRST_OWN, class_name};

/// The name of a class of the library or of the image; what is no class has none.
pub(crate) fn type_name(image: &Image, class: u16) -> &[u8]
    ensures { result.now ≡ name_in image.now class }
{
    if class < FIRST_OWN {
        return class_name(class).unwrap_or(&[]);
    }
    match image.types.as_slice().get(usize::from(class - FIRST_OWN)) {
        Some(TypeEntry::Class(entry)) => entry.name.as_slice(),
        Some(TypeEntry::RefArray { .. } | TypeEntry::NumArray { .. }) | None => &[],
    }
}
