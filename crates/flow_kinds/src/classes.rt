//! The superclasses that classes share.

ghost use Rattle.std.specs.Prelude.{◌≡◌, nat_eq};
ghost use Rattle.std.specs.List.{find, list_any};
ghost use Rattle.class_tree.specs.Set.{IsClass};
ghost use Rattle.class_tree.specs.Merge.{is_class_or_super as is_class_or_super_of, common_super as common_super_of};

use class_tree::ClassSet;

/// The number of `java/lang/Object`.
pub(crate) const OBJECT: u16 = 0;

/// A class is among these.
fn is_among(way: &[u16], class: u16) -> bool
    ensures { result ≡ list_any (nat_eq class) way.now }
{
    way.iter().any(|other| class == *other)
}

/// The first of some classes that is among others.
fn first_common(first: &[u16], second: &[u16]) -> Option<u16>
    ensures { result ≡ find (λ class. list_any (nat_eq class) second.now) first.now }
{
    first.iter().copied().find(|class| is_among(second, *class))
}

/// A class is another one, or the other one is among its superclasses.
#[tactic(auto, using(crate::proofs::WayClasses::above_along))]
pub(crate) fn is_class_or_super(set: &ClassSet, class: u16, upper: u16) -> bool
    requires { IsClass set.now class }
    ensures { result ≡ is_class_or_super_of set.now class upper }
{
    is_among(set.superclass_way(class), upper)
}

/// The first common superclass of two classes, where each counts as one of its own.
#[tactic(auto, using(crate::proofs::WayClasses::common_along))]
pub(crate) fn common_super(set: &ClassSet, a: u16, b: u16) -> u16
    requires first { IsClass set.now a }
    requires second { IsClass set.now b }
    ensures { result ≡ common_super_of set.now a b }
{
    first_common(set.superclass_way(a), set.superclass_way(b)).unwrap_or(OBJECT)
}
