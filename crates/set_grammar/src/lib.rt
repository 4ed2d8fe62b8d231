//! That the image of an accepted set keeps to the grammar of infusions. Of each set it is proved of the selectors, the
//! methods, main, the statics and the rows of classes (specs/Parts.antt), and of each set of files of bytes of the types and
//! of the image as a whole (specs/Grammars.antt).
//! This crate has no code of its own. It stands on `set_image`, `set_compile`, `image_form`, `body_limits`, `type_safety`,
//! `match_starts`, `class_order` and `follow_numbers`.
#![tactic(auto)]

ghost use Rattle.set_grammar.specs.Grammars.{SetImagesAreImages};
ghost use Rattle.set_grammar.specs.Parts.{OfEachImage, OfEachImageOfBytes, HasMain, HasMethods, HasRows, HasSelectors, HasStatics, HasTypes};

use body_limits::bodies_keep_limits;
use set_compile::sets_compile;
use type_safety::typed_code_starts;

/// In the image of a set of files that no phase refuses, the methods, main and the statics keep to the grammar.
pub fn set_images_have_methods()
    ensures statics { OfEachImage HasStatics }
    ensures main { OfEachImage HasMain }
    ensures methods { OfEachImage HasMethods }
{
    sets_compile();
    typed_code_starts();
    bodies_keep_limits();
}

/// In the image of a set of files that no phase refuses, the selectors keep to the grammar.
pub fn set_images_have_selectors()
    ensures selectors { OfEachImage HasSelectors }
{}

/// In the image of a set of files that no phase refuses, the rows of classes keep to the grammar. Where the files are bytes,
/// the types do too, and the image as a whole.
pub fn set_images_are_images()
    ensures types { OfEachImageOfBytes HasTypes }
    ensures rows { OfEachImage HasRows }
    ensures images { SetImagesAreImages }
{
    sets_compile();
    typed_code_starts();
    bodies_keep_limits();
}
