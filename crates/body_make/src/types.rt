//! The types and classes that entries of a constant pool name, resolved from a class (JVMS 5.4.3.1).

ghost use Rattle.std.specs.Prelude.{◌≡◌, true, IfOk};
ghost use Rattle.class_file.specs.Rules.{is_array_name as is_array_name_of};
ghost use Rattle.class_tree.specs.Set.{IsClass};
ghost use Rattle.class_tree.specs.Subtypes.{IsBaseType};
ghost use Rattle.jvm_model.specs.Resolution.{class_named as class_of_name, base_named as base_of_name, kind_named as type_of_kind, type_named as type_of_name, may_use_base as may_use_base_of, type_used as type_used_at};
ghost use Rattle.body_make.specs.Answers.{Tells};
ghost use Rattle.body_make.specs.TypeTests.{test_of};

use crate::fault::Fault;
use crate::type_test::TypeTest;
use class_find::may_use_class;
use class_pool::{Base, Kind, Pool, TypeBase, TypeRef, read_field_descriptor};
use class_tree::ClassSet;
use std::alloc::Global;

/// The class of this name.
#[tactic(auto, using(jvm_model::proofs::bodies::NamedClasses::named_class))]
pub(crate) fn class_named(set: &ClassSet, name: &[u8]) -> Result<u16, Fault>
    ensures tells { Tells result (class_of_name set.now name.now) }
    ensures class { IfOk result (IsClass set.now) }
{
    match set.number_of(name) {
        Some(class) => Ok(class),
        None => Err(Fault::Unresolved),
    }
}

/// What a descriptor's type is an array of. A long, a float and a double are of no kind that has values here.
fn base_named(set: &ClassSet, base: &Base) -> Result<TypeBase, Fault>
    ensures tells { Tells result (base_of_name set.now base.now) }
    ensures base { IfOk result (IsBaseType set.now) }
{
    match base {
        Base::Byte => Ok(TypeBase::Byte),
        Base::Char => Ok(TypeBase::Char),
        Base::Short => Ok(TypeBase::Short),
        Base::Int => Ok(TypeBase::Int),
        Base::Boolean => Ok(TypeBase::Boolean),
        Base::Class(name) => Ok(TypeBase::Class(class_named(set, name.as_slice())?)),
        Base::Double | Base::Float | Base::Long => Err(Fault::WrongKind),
    }
}

/// A base as a type without dimensions.
fn plain(base: TypeBase) -> TypeRef
    ensures { result ≡ record { dims = 0; base = base } }
{
    TypeRef { dims: 0, base }
}

/// The type of a descriptor.
fn kind_named(set: &ClassSet, kind: &Kind) -> Result<TypeRef, Fault>
    ensures tells { Tells result (type_of_kind set.now kind.now) }
    ensures base { IfOk result (λ type. IsBaseType set.now type.base) }
{
    match kind {
        Kind::Byte => Ok(plain(TypeBase::Byte)),
        Kind::Char => Ok(plain(TypeBase::Char)),
        Kind::Short => Ok(plain(TypeBase::Short)),
        Kind::Int => Ok(plain(TypeBase::Int)),
        Kind::Boolean => Ok(plain(TypeBase::Boolean)),
        Kind::Class(name) => Ok(plain(TypeBase::Class(class_named(set, name.as_slice())?))),
        Kind::Array { dims, of } => Ok(TypeRef {
            dims: *dims,
            base: base_named(set, of)?,
        }),
        Kind::Double | Kind::Float | Kind::Long => Err(Fault::WrongKind),
    }
}

/// The name is that of an array.
fn is_array_name(name: &[u8]) -> bool
    ensures { result ≡ is_array_name_of name.now }
{
    name.starts_with(b"[")
}

/// The type that the name of a class entry names (JVMS 4.4.1): an array by its descriptor, or else a class.
fn type_named(alloc: Global, set: &ClassSet, name: &[u8]) -> Result<TypeRef, Fault>
    ensures tells { Tells result (type_of_name set.now name.now) }
    ensures base { IfOk result (λ type. IsBaseType set.now type.base) }
{
    if is_array_name(name) {
        let kind = read_field_descriptor(alloc, name)?;
        return kind_named(set, &kind);
    }
    Ok(plain(TypeBase::Class(class_named(set, name)?)))
}

/// A class may use the base of a type: that is primitive, or a class that it may use.
fn may_use_base(set: &ClassSet, from: u16, base: TypeBase) -> bool
    requires from { IsClass set.now from }
    requires base { IsBaseType set.now base }
    ensures { result ≡ may_use_base_of set.now from base }
{
    match base {
        TypeBase::Class(class) => may_use_class(set, from, class),
        _ => true,
    }
}

/// The type that the entry at an index names, where it passes a test and the class may use it.
pub(crate) fn type_used(
    alloc: Global,
    set: &ClassSet,
    from: u16,
    pool: &Pool,
    test: TypeTest,
    index: u16,
) -> Result<TypeRef, Fault>
    requires { IsClass set.now from }
    ensures tells { Tells result (type_used_at set.now from pool.now (test_of set.now test) index) }
    ensures passes { IfOk result (λ type. test_of set.now test type ≡ true) }
{
    let Some(name) = pool.class_name(index) else {
        return Err(Fault::WrongKind);
    };
    let named = type_named(alloc, set, name)?;
    if !test.passes(set, named) {
        return Err(Fault::WrongKind);
    }
    if !may_use_base(set, from, named.base) {
        return Err(Fault::Denied);
    }
    Ok(named)
}
