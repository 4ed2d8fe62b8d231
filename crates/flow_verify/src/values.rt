//! Tests of single values.

ghost use Rattle.std.specs.Prelude.{◌≡◌};
ghost use Rattle.class_tree.specs.MergeLaws.{IsKnown};
ghost use Rattle.jvm_model.specs.TypesFrames.{is_int as is_int_type, fits_type as fits_type_of, value_of as value_of_type};
ghost use Rattle.jvm_model.specs.TypesRules.{is_any_reference as is_any_reference_type, is_constructed as is_constructed_type, has_kind as has_kind_type, fits_class as fits_class_type, is_this as is_this_type, is_array as is_array_type, is_element as is_element_type, has_elements as has_elements_type, is_array_of as is_array_of_type, element_of as element_of_type, is_elements_value as is_elements_value_type, component_of as component_of_type};

use body_form::VType;
use class_pool::{TypeBase, TypeRef};
use class_tree::ClassSet;
use flow_kinds::{fits, is_reference, is_same_primitive};
use insn_form::{ElementKind, ValueKind};

// ---- kinds of values

pub(crate) fn is_int(value: VType) -> bool
    ensures { result ≡ is_int_type value }
{
    matches!(value, VType::Int)
}

/// A reference, maybe to an object that is not yet constructed.
fn is_any_reference(value: VType) -> bool
    ensures { result ≡ is_any_reference_type value }
{
    match value {
        VType::Null | VType::Ref(_) | VType::New(_) | VType::This => true,
        VType::Top | VType::Int => false,
    }
}

/// A reference, but to no object that is not yet constructed.
pub(crate) fn is_constructed(value: VType) -> bool
    ensures { result ≡ is_constructed_type value }
{
    matches!(value, VType::Null | VType::Ref(_))
}

/// The object of a constructor that has yet to call another one.
pub(crate) fn is_this(value: VType) -> bool
    ensures { result ≡ is_this_type value }
{
    matches!(value, VType::This)
}

/// A value of the kind that a load, a store or a return is of.
pub(crate) fn has_kind(kind: ValueKind, value: VType) -> bool
    ensures { result ≡ has_kind_type kind value }
{
    match kind {
        ValueKind::Int => is_int(value),
        ValueKind::Ref => is_any_reference(value),
    }
}

// ---- declared types

/// What is known of a value of a type.
pub(crate) fn value_of(declared: TypeRef) -> VType
    ensures { result ≡ value_of_type declared }
{
    if is_reference(declared) {
        VType::Ref(declared)
    } else {
        VType::Int
    }
}

/// A value may stand where a type is declared.
pub(crate) fn fits_type(set: &ClassSet, declared: TypeRef, value: VType) -> bool
    requires { IsKnown set.now value }
    ensures { result ≡ fits_type_of set.now declared value }
{
    if is_reference(declared) {
        fits(set, value, declared)
    } else {
        is_int(value)
    }
}

/// A reference that fits a class.
pub(crate) fn fits_class(set: &ClassSet, class: u16, value: VType) -> bool
    requires { IsKnown set.now value }
    ensures { result ≡ fits_class_type set.now class value }
{
    fits(
        set,
        value,
        TypeRef {
            dims: 0,
            base: TypeBase::Class(class),
        },
    )
}

// ---- arrays

/// Null, or an array.
pub(crate) fn is_array(value: VType) -> bool
    ensures { result ≡ is_array_type value }
{
    match value {
        VType::Null => true,
        VType::Ref(array) => 1 <= array.dims,
        _ => false,
    }
}

/// The type of an array's components.
fn component_of(array: TypeRef) -> TypeRef
    ensures { result ≡ component_of_type array }
{
    TypeRef {
        dims: array.dims.saturating_sub(1),
        base: array.base,
    }
}

/// The elements of arrays of a primitive type that instructions of a kind read and write. Those of bytes also read
/// and write booleans.
fn is_element(kind: ElementKind, base: TypeBase) -> bool
    ensures { result ≡ is_element_type kind base }
{
    match kind {
        ElementKind::Int => is_same_primitive(TypeBase::Int, base),
        ElementKind::Byte => {
            is_same_primitive(TypeBase::Byte, base) || is_same_primitive(TypeBase::Boolean, base)
        }
        ElementKind::Char => is_same_primitive(TypeBase::Char, base),
        ElementKind::Short => is_same_primitive(TypeBase::Short, base),
        ElementKind::Ref => false,
    }
}

/// An array of such elements, or of references.
fn has_elements(kind: ElementKind, array: TypeRef) -> bool
    ensures { result ≡ has_elements_type kind array }
{
    match kind {
        ElementKind::Ref => 1 <= array.dims && is_reference(component_of(array)),
        _ => array.dims == 1 && is_element(kind, array.base),
    }
}

/// Null, or such an array.
pub(crate) fn is_array_of(kind: ElementKind, value: VType) -> bool
    ensures { result ≡ is_array_of_type kind value }
{
    match value {
        VType::Null => true,
        VType::Ref(array) => has_elements(kind, array),
        _ => false,
    }
}

/// What is read of an array of references: null of null.
pub(crate) fn element_of(value: VType) -> VType
    ensures { result ≡ element_of_type value }
{
    match value {
        VType::Ref(array) => VType::Ref(component_of(array)),
        _ => VType::Null,
    }
}

/// What instructions of a kind write to arrays: an int, or a reference to an object that is constructed.
pub(crate) fn is_elements_value(kind: ElementKind, value: VType) -> bool
    ensures { result ≡ is_elements_value_type kind value }
{
    match kind {
        ElementKind::Ref => is_constructed(value),
        _ => is_int(value),
    }
}
