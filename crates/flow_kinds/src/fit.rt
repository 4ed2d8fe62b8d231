//! Which values may stand where a type is declared.

ghost use Rattle.std.specs.Prelude.{◌≡◌};
ghost use Rattle.class_tree.specs.Subtypes.{IsType};
ghost use Rattle.class_tree.specs.Fits.{fits as fits_of, fits_class as fits_class_of, fits_ref as fits_ref_of};
ghost use Rattle.class_tree.specs.MergeLaws.{IsKnown};

use crate::classes::{OBJECT, is_class_or_super};
use crate::refs::{are_primitive, are_references, component_of};
use body_form::VType;
use class_file::is_interface;
use class_pool::{TypeBase, TypeRef};
use class_tree::ClassSet;

/// A reference fits a class: a class fits itself and its superclasses, an array `java/lang/Object`.
fn fits_class(set: &ClassSet, a: TypeRef, upper: u16) -> bool
    requires { IsType set.now a }
    ensures { result ≡ fits_class_of set.now a.dims a.base upper }
{
    if a.dims != 0 {
        return upper == OBJECT;
    }
    match a.base {
        TypeBase::Class(class) => is_class_or_super(set, class, upper),
        _ => false,
    }
}

/// A reference fits a type that is no array: every one fits an interface.
fn fits_no_array(set: &ClassSet, a: TypeRef, b: TypeBase) -> bool
    requires { IsType set.now a }
    ensures { result ≡ fits_ref_of set.now a.dims a.base 0 b }
{
    match b {
        TypeBase::Class(upper) => {
            is_interface(set.class_flags(upper)) || fits_class(set, a, upper)
        }
        _ => false,
    }
}

/// A reference fits a type. An array of references fits an array whose component its component fits, and an array
/// of a primitive type the same one.
fn fits_ref(set: &ClassSet, a: TypeRef, b: TypeRef) -> bool
    requires { IsType set.now a }
    ensures { result ≡ fits_ref_of set.now a.dims a.base b.dims b.base }
{
    match (component_of(a), component_of(b)) {
        (_, None) => fits_no_array(set, a, b.base),
        (None, Some(_)) => false,
        (Some(first), Some(second)) => {
            if are_references(first, second) {
                fits_ref(set, first, second)
            } else {
                are_primitive(first, second)
            }
        }
    }
}

/// What is known of a value fits a type. Null fits every type. What is no reference, or is not yet constructed, fits
/// none.
pub fn fits(set: &ClassSet, a: VType, b: TypeRef) -> bool
    requires { IsKnown set.now a }
    ensures { result ≡ fits_of set.now a b }
{
    match a {
        VType::Null => true,
        VType::Ref(type_ref) => fits_ref(set, type_ref, b),
        _ => false,
    }
}
