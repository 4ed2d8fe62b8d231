//! The merge of what is known of a value on two ways.

ghost use Rattle.std.specs.Prelude.{◌≡◌, ◌≤◌, ◌<◌};
ghost use Rattle.class_tree.specs.Subtypes.{IsType, IsBaseType, array_of};
ghost use Rattle.class_tree.specs.Merge.{merge as merge_of, merge_refs as merge_refs_of};
ghost use Rattle.class_tree.specs.MergeLaws.{IsKnown};

use crate::classes::{OBJECT, common_super};
use crate::refs::{are_primitive, are_references, component_of};
use body_form::VType;
use class_pool::{TypeBase, TypeRef};
use class_tree::ClassSet;

/// The type `java/lang/Object`.
const OBJECT_TYPE: TypeRef = TypeRef {
    dims: 0,
    base: TypeBase::Class(OBJECT),
};

/// The type of the arrays of a type.
fn array_of(component: TypeRef) -> TypeRef
    requires { component.dims < 255 }
    ensures { result ≡ array_of component }
{
    TypeRef {
        dims: component.dims + 1,
        base: component.base,
    }
}

/// The merge of two types that are no arrays: two classes give their first common superclass.
fn merge_classes(set: &ClassSet, a: TypeBase, b: TypeBase) -> TypeRef
    requires first { IsBaseType set.now a }
    requires second { IsBaseType set.now b }
    ensures merged { result ≡ merge_refs_of set.now 0 a 0 b }
    ensures class { result.dims ≡ 0 }
{
    match (a, b) {
        (TypeBase::Class(first), TypeBase::Class(second)) => TypeRef {
            dims: 0,
            base: TypeBase::Class(common_super(set, first, second)),
        },
        _ => OBJECT_TYPE,
    }
}

/// The merge of two references: of two arrays of references the array of their merged components, of two arrays of
/// one primitive type that array.
fn merge_refs(set: &ClassSet, a: TypeRef, b: TypeRef) -> TypeRef
    requires first { IsType set.now a }
    requires second { IsType set.now b }
    ensures merged { result ≡ merge_refs_of set.now a.dims a.base b.dims b.base }
    ensures dims { result.dims ≤ a.dims }
{
    match (component_of(a), component_of(b)) {
        (Some(first), Some(second)) => {
            if are_references(first, second) {
                array_of(merge_refs(set, first, second))
            } else if are_primitive(first, second) {
                a
            } else {
                OBJECT_TYPE
            }
        }
        (None, None) => merge_classes(set, a.base, b.base),
        _ => OBJECT_TYPE,
    }
}

/// What is known of a value that comes from two places. Equal types stay. Null and a reference give the reference,
/// and two references merge. All else gives Top.
pub fn merge(set: &ClassSet, a: VType, b: VType) -> VType
    requires first { IsKnown set.now a }
    requires second { IsKnown set.now b }
    ensures { result ≡ merge_of set.now a b }
{
    match (a, b) {
        (VType::Int, VType::Int) | (VType::Null, VType::Null) | (VType::This, VType::This) => a,
        (VType::Null, VType::Ref(_)) => b,
        (VType::Ref(_), VType::Null) => a,
        (VType::Ref(first), VType::Ref(second)) => VType::Ref(merge_refs(set, first, second)),
        (VType::New(first), VType::New(second)) if first == second => a,
        _ => VType::Top,
    }
}
