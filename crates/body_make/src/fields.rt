//! The fields that instructions name, resolved from a class (JVMS 5.4.3.2, 6.5).

ghost use Rattle.std.specs.Prelude.{◌≡◌, true, option_map, IfOk};
ghost use Rattle.class_pool.specs.declared.types.MemberId.{MemberId as Member};
ghost use Rattle.class_tree.specs.Set.{IsClass};
ghost use Rattle.class_tree.specs.Members.{IsMember};
ghost use Rattle.class_tree.specs.AccessTests.{is_allowed as is_allowed_of};
ghost use Rattle.jvm_model.specs.Resolution.{member_named as member_named_of, field_name_at};
ghost use Rattle.jvm_model.specs.FieldUses.{may_use_field as may_use_field_of, field_found as field_of_name, field_tested, field_used as field_used_at};
ghost use Rattle.jvm_model.specs.Instructions.{read_of, write_of};
ghost use Rattle.body_make.specs.Answers.{Tells, TellsBy};
ghost use Rattle.body_make.specs.MemberUses.{name_of, asked_of};

use crate::fault::Fault;
use crate::types::class_named;
use body_form::FieldUse;
use class_file::{is_final, is_static};
use class_find::{allowed, find_field, may_use_class};
use class_pool::{Const, MemberId, MemberName, Pool, name_and_type_in, read_field_descriptor};
use class_tree::ClassSet;
use std::alloc::Global;

/// What an instruction does with a field: it writes or only reads it, and asks for a static one or not.
#[derive(Clone, Copy, Debug, PartialEq, Eq)]
pub(crate) struct FieldAsked {
    pub writes: bool,
    pub of_class: bool,
}

impl FieldAsked {
    /// It reads a static field, or one of an object.
    pub(crate) fn read(of_class: bool) -> FieldAsked
        ensures { asked_of result ≡ read_of of_class }
    {
        FieldAsked {
            writes: false,
            of_class,
        }
    }

    /// It writes a static field, or one of an object.
    pub(crate) fn write(of_class: bool) -> FieldAsked
        ensures { asked_of result ≡ write_of of_class }
    {
        FieldAsked {
            writes: true,
            of_class,
        }
    }
}

/// What the two parts of a reference to a member name.
pub(crate) fn member_named(pool: &Pool, class: u16, name_and_type: u16) -> Option<MemberName<'_>>
    ensures { option_map name_of result ≡ member_named_of pool.now class name_and_type }
{
    let class = pool.class_name(class)?;
    let (name, descriptor) = name_and_type_in(pool, name_and_type)?;
    Some(MemberName {
        class,
        name,
        descriptor,
    })
}

/// The member that the entry at an index names, where it is a field.
pub(crate) fn field_name(pool: &Pool, index: u16) -> Option<MemberName<'_>>
    ensures { option_map name_of result ≡ field_name_at pool.now index }
{
    match pool.get(index)? {
        Const::Field(class, name_and_type) => member_named(pool, *class, *name_and_type),
        _ => None,
    }
}

/// A class may use a field, or a method.
#[tactic(auto, using(crate::proofs::TestedAccess::tested_allowed))]
pub(crate) fn is_allowed(set: &ClassSet, from: u16, field: bool, id: MemberId) -> bool
    requires from { IsClass set.now from }
    requires member { IsMember set.now field id }
    ensures { result ≡ is_allowed_of set.now from field id }
{
    allowed(set, from, id, field)
}

/// The class may use the field so: the class that is named and the field, which is no final field of another
/// class that is written.
fn may_use_field(set: &ClassSet, from: u16, asked: FieldAsked, class: u16, id: MemberId) -> bool
    requires from { IsClass set.now from }
    requires class { IsClass set.now class }
    requires member { IsMember set.now true id }
    ensures { result ≡ may_use_field_of set.now from (asked_of asked) class id }
{
    may_use_class(set, from, class)
        && is_allowed(set, from, true, id)
        && !(asked.writes && is_final(set.member_flags(id, true)) && from != id.class)
}

/// The field of this name, this descriptor and this class, with its type.
fn field_found(
    alloc: Global,
    set: &ClassSet,
    named: MemberName<'_>,
    class: u16,
) -> Result<FieldUse, Fault>
    requires { IsClass set.now class }
    ensures tells { Tells result (field_of_name set.now (name_of named.entry) class) }
    ensures class { IfOk result (λ found. found.class ≡ class) }
    ensures member { IfOk result (λ found. IsMember set.now true found.field) }
{
    let kind = read_field_descriptor(alloc, named.descriptor)?;
    match find_field(set, class, named.name, named.descriptor) {
        Some(field) => Ok(FieldUse { field, kind, class }),
        None => Err(Fault::Unresolved),
    }
}

/// Tests that the field is static where a static one is asked for, and that the class may use it.
fn test_field(set: &ClassSet, from: u16, asked: FieldAsked, found: &FieldUse) -> Result<(), Fault>
    requires from { IsClass set.now from }
    requires class { IsClass set.now found.now.class }
    requires member { IsMember set.now true found.now.field }
    ensures { TellsBy (λ _. found.now) result (field_tested set.now from (asked_of asked) found.now) }
{
    if asked.of_class != is_static(set.member_flags(found.field, true)) {
        return Err(Fault::WrongKind);
    }
    if !may_use_field(set, from, asked, found.class, found.field) {
        return Err(Fault::Denied);
    }
    Ok(())
}

/// The field that the entry at an index names.
pub(crate) fn field_used(
    alloc: Global,
    set: &ClassSet,
    from: u16,
    pool: &Pool,
    asked: FieldAsked,
    index: u16,
) -> Result<FieldUse, Fault>
    requires { IsClass set.now from }
    ensures { Tells result (field_used_at set.now from pool.now (asked_of asked) index) }
{
    let Some(named) = field_name(pool, index) else {
        return Err(Fault::WrongKind);
    };
    let class = class_named(set, named.class)?;
    let found = field_found(alloc, set, named, class)?;
    test_field(set, from, asked, &found)?;
    Ok(found)
}
