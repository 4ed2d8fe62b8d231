//! What the definitions say of each other.

ghost use Rattle.std.specs.Prelude.{◌≡◌};
ghost use Rattle.image_form.specs.declared.record.Image.{Image};
ghost use Rattle.image_check.specs.declared.refusal.CheckRefusal.{CheckRefusal};
ghost use Rattle.image_check.specs.Checked.{IsChecked, IsBuilt};
ghost use Rattle.image_check.specs.Refused.{IsRefused};

/// An image that is refused is not both checked and built.
pub fn refused_images_are_not_checked()
    ensures { (image : Image) (refusal : CheckRefusal) → IsRefused image refusal → IsChecked image → IsBuilt image → ⊥ }
{}
