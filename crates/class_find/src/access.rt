//! Which members a class may use (JVMS 5.4.4).

ghost use Rattle.std.specs.Prelude.{◌≡◌, true, MatchBool};
ghost use Rattle.class_file.specs.Rules.{is_protected as is_protected_flags, is_private as is_private_flags};
ghost use Rattle.class_tree.specs.Set.{IsClass};
ghost use Rattle.class_tree.specs.Subtypes.{IsSubclass};
ghost use Rattle.class_tree.specs.Members.{IsMember};
ghost use Rattle.class_tree.specs.Access.{is_package_private as is_package_private_flags, may_use_class as may_use_class_of, MayUse, IsAllowed};

use crate::package::is_same_package;
use class_file::{is_private, is_protected, is_public};
use class_pool::MemberId;
use class_tree::ClassSet;

/// The flags are those of a member that only its package may use.
pub(crate) fn is_package_private(flags: u16) -> bool
    ensures { result ≡ is_package_private_flags flags }
{
    !is_public(flags) && !is_protected(flags) && !is_private(flags)
}

/// A class may use another one: that is public, or of the same package.
pub fn may_use_class(set: &ClassSet, from: u16, class: u16) -> bool
    requires from { IsClass set.now from }
    requires class { IsClass set.now class }
    ensures { result ≡ may_use_class_of set.now from class }
{
    is_public(set.class_flags(class)) || is_same_package(set, from, class)
}

/// The member is protected, and the class is its class or below it.
fn is_inherited(set: &ClassSet, from: u16, class: u16, flags: u16) -> bool
    requires from { IsClass set.now from }
    requires class { IsClass set.now class }
    ensures { MatchBool result ((is_protected_flags flags ≡ true) × IsSubclass set.now from class) (¬ ((is_protected_flags flags ≡ true) × IsSubclass set.now from class)) }
{
    is_protected(flags) && set.is_subclass(from, class)
}

/// A class may use a member with these flags of a class.
fn may_use(set: &ClassSet, from: u16, class: u16, flags: u16) -> bool
    requires from { IsClass set.now from }
    requires class { IsClass set.now class }
    ensures { MatchBool result (MayUse set.now from class flags) (¬ MayUse set.now from class flags) }
{
    if is_public(flags) {
        return true;
    }
    if is_inherited(set, from, class, flags) {
        return true;
    }
    if is_protected(flags) || is_package_private(flags) {
        return is_same_package(set, from, class);
    }
    is_private(flags) && from == class
}

/// A class may use a field, or a method: it is public; or it is protected and the class is below its class;
/// or it is protected or package-private and of the same package; or it is private and of the class itself.
pub fn allowed(set: &ClassSet, from: u16, member: MemberId, field: bool) -> bool
    requires from { IsClass set.now from }
    requires member { IsMember set.now field member }
    ensures { MatchBool result (IsAllowed set.now from member field) (¬ IsAllowed set.now from member field) }
{
    may_use(set, from, member.class, set.member_flags(member, field))
}
