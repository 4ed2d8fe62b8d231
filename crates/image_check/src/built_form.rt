//! The form of the images that the machine runs so far.

ghost use Rattle.std.specs.Prelude.{◌≡◌};
ghost use Rattle.image_check.specs.BuiltForm.{has_no_handler, has_built_form};

use image_form::{Image, Method};

/// Whether the method has no handlers.
fn has_no_handler(method: &Method) -> bool
    ensures { result ≡ has_no_handler method.now }
{
    method.handlers.as_slice().is_empty()
}

/// Whether the image has the form that the machine runs, apart from its instructions.
pub(crate) fn has_built_form(image: &Image) -> bool
    ensures { result ≡ has_built_form image.now }
{
    image
        .methods
        .as_slice()
        .iter()
        .all(|method| has_no_handler(method))
}
