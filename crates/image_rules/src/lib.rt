//! That the image of an accepted set keeps the rules of the check: its code is instructions, which jump to starts, name what
//! is there and are run so far, and each offset is reached with one depth of operands, at which its instruction keeps its
//! rule. What is said stands in specs/Rules.antt, over what is known of a body and what follows for its machine instructions
//! (specs/Parts.antt, Depths.antt). This crate has no code of its own. It stands on `set_runs`, `set_compile`, `match_code`,
//! `body_limits`, `image_check` and `split_safety`.
#![tactic(auto)]

ghost use Rattle.image_rules.specs.Rules.{DepthsAreRight, InsnsAreRight};

use body_limits::bodies_keep_limits;
use class_order::class_order_is_right;
use set_compile::sets_compile;
use type_safety::typed_code_starts;

/// In the image of a set of files that no phase refuses, each method keeps the rules of the check, and is run.
pub fn set_images_keep_rules()
    ensures insns { InsnsAreRight }
    ensures depths { DepthsAreRight }
{
    class_order_is_right();
    sets_compile();
    bodies_keep_limits();
    typed_code_starts();
}
