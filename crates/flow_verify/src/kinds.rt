//! The types of declared kinds. A set has each class that a descriptor names.

ghost use Rattle.std.specs.Prelude.{◌≡◌, map, option_map};
ghost use Rattle.std.specs.Result.{result_ok};
ghost use Rattle.class_tree.specs.Set.{number_of};
ghost use Rattle.jvm_model.specs.Resolution.{base_named, kind_named};
ghost use Rattle.jvm_model.specs.TypesFrames.{fits_kind, value_of_kind as value_of_kind_type};
ghost use Rattle.flow_verify.specs.Needs.{test_of};

use crate::need::Need;
use crate::values::value_of;
use body_form::VType;
use class_pool::{Base, Kind, TypeBase, TypeRef};
use class_tree::ClassSet;

/// What a descriptor's type is an array of.
fn base_type(set: &ClassSet, base: &Base) -> Option<TypeBase>
    ensures { result ≡ result_ok (base_named set.now base.now) }
{
    match base {
        Base::Byte => Some(TypeBase::Byte),
        Base::Char => Some(TypeBase::Char),
        Base::Short => Some(TypeBase::Short),
        Base::Int => Some(TypeBase::Int),
        Base::Boolean => Some(TypeBase::Boolean),
        Base::Class(name) => match set.number_of(name.as_slice()) {
            Some(class) => Some(TypeBase::Class(class)),
            None => None,
        },
        Base::Double | Base::Float | Base::Long => None,
    }
}

/// A base as a type without dimensions.
fn plain(base: TypeBase) -> TypeRef
    ensures { result ≡ record { dims = 0; base = base } }
{
    TypeRef { dims: 0, base }
}

/// The type of a descriptor.
pub(crate) fn kind_type(set: &ClassSet, kind: &Kind) -> Option<TypeRef>
    ensures { result ≡ result_ok (kind_named set.now kind.now) }
{
    match kind {
        Kind::Byte => Some(plain(TypeBase::Byte)),
        Kind::Char => Some(plain(TypeBase::Char)),
        Kind::Short => Some(plain(TypeBase::Short)),
        Kind::Int => Some(plain(TypeBase::Int)),
        Kind::Boolean => Some(plain(TypeBase::Boolean)),
        Kind::Class(name) => match set.number_of(name.as_slice()) {
            Some(class) => Some(plain(TypeBase::Class(class))),
            None => None,
        },
        Kind::Array { dims, of } => match base_type(set, of) {
            Some(base) => Some(TypeRef { dims: *dims, base }),
            None => None,
        },
        Kind::Double | Kind::Float | Kind::Long => None,
    }
}

/// What is known of a value of a declared type.
pub(crate) fn value_of_kind(set: &ClassSet, kind: &Kind) -> Option<VType>
    ensures { result ≡ value_of_kind_type set.now kind.now }
{
    match kind_type(set, kind) {
        Some(declared) => Some(value_of(declared)),
        None => None,
    }
}

/// What a value has to be where a type is declared.
pub(crate) fn declared_need(set: &ClassSet, kind: &Kind) -> Need
    ensures { test_of set.now result ≡ fits_kind set.now kind.now }
{
    match kind_type(set, kind) {
        Some(declared) => Need::Declared(declared),
        None => Need::Never,
    }
}
