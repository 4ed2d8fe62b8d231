//! References and primitive types, by their dimensions and bases.

ghost use Rattle.std.specs.Prelude.{◌≡◌, ◌+◌, ◌&&◌, IfSome, IsNone};
ghost use Rattle.class_tree.specs.Merge.{is_reference as is_reference_of, is_same_primitive as is_same_primitive_of, are_primitive as are_primitive_of};

use class_pool::{TypeBase, TypeRef};

/// The type is a class or an array.
pub fn is_reference(type_ref: TypeRef) -> bool
    ensures { result ≡ is_reference_of type_ref.dims type_ref.base }
{
    match type_ref.base {
        TypeBase::Class(_) => true,
        _ => type_ref.dims != 0,
    }
}

/// The base is the same; a class is no primitive type.
pub fn is_same_primitive(a: TypeBase, b: TypeBase) -> bool
    ensures { result ≡ is_same_primitive_of a b }
{
    match (a, b) {
        (TypeBase::Byte, TypeBase::Byte)
        | (TypeBase::Char, TypeBase::Char)
        | (TypeBase::Short, TypeBase::Short)
        | (TypeBase::Int, TypeBase::Int)
        | (TypeBase::Boolean, TypeBase::Boolean) => true,
        _ => false,
    }
}

/// Both types are classes or arrays.
pub(crate) fn are_references(a: TypeRef, b: TypeRef) -> bool
    ensures { result ≡ (is_reference_of a.dims a.base && is_reference_of b.dims b.base) }
{
    is_reference(a) && is_reference(b)
}

/// The types are the same primitive type.
pub(crate) fn are_primitive(a: TypeRef, b: TypeRef) -> bool
    ensures { result ≡ are_primitive_of a.dims a.base b.dims b.base }
{
    a.dims == 0 && b.dims == 0 && is_same_primitive(a.base, b.base)
}

/// The type of the components of an array.
pub(crate) fn component_of(array: TypeRef) -> Option<TypeRef>
    ensures some { IfSome result (λ type. (type.dims + 1 ≡ array.dims) × (type.base ≡ array.base)) }
    ensures none { IsNone result → array.dims ≡ 0 }
{
    match array.dims {
        0 => None,
        dims => Some(TypeRef {
            dims: dims - 1,
            base: array.base,
        }),
    }
}
