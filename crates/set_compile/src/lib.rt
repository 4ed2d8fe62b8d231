//! That a linked set, with its image, is typed code with its image: each body is laid out by its types, and its code stands
//! in the image at the id of its method. What is said stands in specs/Compiled.antt, and what the laws on runs are told of a
//! set in specs/Settings.antt. This crate has no code of its own. It stands on `set_image`, `match_states`, `type_safety`,
//! `class_order` and `infuse_ids`.
#![tactic(auto)]

ghost use Rattle.set_compile.specs.Compiled.{SetsCompile};

use class_order::class_order_is_right;
use type_safety::typed_code_is_safe;

/// A set of linked files is compiled to its image.
pub fn sets_compile()
    ensures { SetsCompile }
{
    typed_code_is_safe();
    class_order_is_right();
}
