//! Which method of a superclass a method overrides, and which methods may not stand above one another.

ghost use Rattle.std.specs.Prelude.{◌≡◌};
ghost use Rattle.class_tree.specs.Set.{IsClass};
ghost use Rattle.class_tree.specs.Overriding.{overridden as overridden_by, differs_in_static as differs_in_static_flags, is_bad_override as is_bad_override_of};

use crate::access::is_package_private;
use crate::along::open_along;
use crate::package::is_same_package;
use class_file::{is_final, is_private, is_static};
use class_pool::MemberId;
use class_tree::ClassSet;

/// The method of the nearest superclass of a class that declares one of this name and this descriptor that is
/// not private (JVMS 5.4.5).
pub fn overridden(set: &ClassSet, class: u16, name: &[u8], descriptor: &[u8]) -> Option<MemberId>
    requires { IsClass set.now class }
    ensures { result ≡ overridden_by set.now name.now descriptor.now class }
{
    let upper = set.superclass_of(class)?;
    open_along(set, set.superclass_way(upper), name, descriptor)
}

/// One of the two methods is static, and the other is not.
fn differs_in_static(lower: u16, upper: u16) -> bool
    ensures { result ≡ differs_in_static_flags lower upper }
{
    is_static(lower) != is_static(upper)
}

/// The lower method may not stand below the upper one: one of them alone is static, the upper one is final or
/// is package-private in another package, or the lower one is private and the upper one is not static.
pub fn is_bad_override(set: &ClassSet, lower: MemberId, upper: MemberId) -> bool
    requires lower { IsClass set.now lower.class }
    requires upper { IsClass set.now upper.class }
    ensures { result ≡ is_bad_override_of set.now lower upper }
{
    let below = set.method_flags(lower);
    let over = set.method_flags(upper);
    differs_in_static(below, over)
        || is_final(over)
        || is_package_private(over) && !is_same_package(set, lower.class, upper.class)
        || is_private(below) && !is_static(over)
}
