//! Which types are below which.

ghost use Rattle.std.specs.Prelude.{MatchBool};
ghost use Rattle.class_tree.specs.Subtypes.{IsType, IsBaseType, IsBaseBelow, IsSubtype};

use crate::set::ClassSet;
use class_pool::{TypeBase, TypeRef};

/// The number of `java/lang/Object`.
const OBJECT: u16 = 0;

/// One base is below another, or the same.
fn is_base_below(set: &ClassSet, a: TypeBase, b: TypeBase) -> bool
    requires first { IsBaseType set.now a }
    requires second { IsBaseType set.now b }
    ensures { MatchBool result (IsBaseBelow set.now a b) (¬ IsBaseBelow set.now a b) }
{
    match (a, b) {
        (TypeBase::Class(lower), TypeBase::Class(upper)) => set.is_subclass(lower, upper),
        _ => a == b,
    }
}

/// A type is another one, or is below it: a class below its superclass and its superinterfaces, every array
/// below `java/lang/Object`, and an array of references below that of references above its components
/// (JVMS 4.10.1.2, without the interfaces of arrays).
#[tactic(auto, using(crate::proofs::ancestors::Subtyping::below_sound, crate::proofs::ancestors::Subtyping::below_complete))]
pub fn is_subtype(set: &ClassSet, a: TypeRef, b: TypeRef) -> bool
    requires first { IsType set.now a }
    requires second { IsType set.now b }
    ensures { MatchBool result (IsSubtype set.now a b) (¬ IsSubtype set.now a b) }
{
    if a.dims == b.dims {
        is_base_below(set, a.base, b.base)
    } else {
        b.dims < a.dims && b.base == TypeBase::Class(OBJECT)
    }
}
