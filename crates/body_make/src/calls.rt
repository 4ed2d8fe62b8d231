//! The methods that calls name, resolved from the class in which the call stands (JVMS 5.4.3.3, 5.4.3.4, 6.5).

ghost use Rattle.std.specs.Prelude.{◌≡◌, ◌&&◌, false, nat_eq, is_some, slice_get, option_map, IfOk, IfSome, Ok};
ghost use Rattle.std.specs.Option.{ok_or, option_map_or};
ghost use Rattle.class_tree.specs.Set.{IsClass};
ghost use Rattle.class_tree.specs.Members.{IsMember};
ghost use Rattle.class_tree.specs.Access.{may_use_class as may_use_class_of};
ghost use Rattle.class_tree.specs.AccessTests.{is_allowed as is_allowed_of};
ghost use Rattle.std.specs.Str.{bytes_eq};
ghost use Rattle.jvm_model.specs.declared.refusal.Cause.TheVariants as cause;
ghost use Rattle.jvm_model.specs.Resolution.{and_then, where_passes, method_name_at};
ghost use Rattle.jvm_model.specs.MethodUses as uses;
ghost use Rattle.body_make.specs.Answers.{Tells, TellsBy};
ghost use Rattle.body_make.specs.MemberUses.{name_of};
ghost use Rattle.body_make.specs.Calls.{method_of, call_of, takes_tag, tag_of, fits as fits_of, target_of as target_of_call, used_by};

use crate::fault::Fault;
use crate::fields::{is_allowed, member_named};
use crate::type_test::is_subclass;
use crate::types::class_named;
use body_form::MethodUse;
use class_file::{ClassFile, is_interface, is_private, is_static};
use class_find::{find_interface_method, find_method, may_use_class, select};
use class_pool::{Const, Descriptor, MemberId, MemberName, Pool, read_descriptor};
use class_tree::ClassSet;
use item_list::Items;
use library::FIRST_OWN;
use std::alloc::Global;

/// The name of constructors (JVMS 2.9).
const CONSTRUCTOR: &[u8] = b"<init>";

/// The name of the initialiser of a class (JVMS 2.9).
const INITIALISER: &[u8] = b"<clinit>";

/// The kind of a call.
#[derive(Clone, Copy, Debug, PartialEq, Eq)]
pub(crate) enum Invoke {
    Virtual,
    Special,
    Static,
    /// With its count of argument places.
    Interface(u8),
}

/// A method that an entry names, and whether the entry is that of an interface's method.
#[derive(Clone, Copy, Debug, PartialEq, Eq)]
struct MethodName<'a> {
    member: MemberName<'a>,
    of_interface: bool,
}

/// What a call finds: the class or interface that it names, and the method that its lookup gives, with its
/// type.
#[derive(Debug, Drop)]
struct Found {
    class: u16,
    method: MemberId,
    descriptor: Descriptor,
}

// ---- what is there

/// The method that the entry at an index names.
fn method_name(pool: &Pool, index: u16) -> Option<MethodName<'_>>
    ensures { option_map method_of result ≡ method_name_at pool.now index }
{
    match pool.get(index)? {
        Const::Method(class, name_and_type) => {
            let member = member_named(pool, *class, *name_and_type)?;
            Some(MethodName {
                member,
                of_interface: false,
            })
        }
        Const::InterfaceMethod(class, name_and_type) => {
            let member = member_named(pool, *class, *name_and_type)?;
            Some(MethodName {
                member,
                of_interface: true,
            })
        }
        _ => None,
    }
}

impl Invoke {
    /// A call of this kind may name the method of a class, or of an interface.
    fn takes(self, of_interface: bool) -> bool
        ensures { result ≡ takes_tag self of_interface }
    {
        match self {
            Invoke::Virtual => !of_interface,
            Invoke::Interface(_) => of_interface,
            Invoke::Special | Invoke::Static => true,
        }
    }
}

/// The method that the entry at an index names, where its tag is one that the call needs.
fn call_named(pool: &Pool, invoke: Invoke, index: u16) -> Result<MethodName<'_>, Fault>
    ensures { TellsBy method_of result (and_then (λ named. where_passes (tag_of invoke named) cause.WrongKind named) (ok_or (method_name_at pool.now index) cause.WrongKind)) }
{
    let Some(named) = method_name(pool, index) else {
        return Err(Fault::WrongKind);
    };
    if !invoke.takes(named.of_interface) {
        return Err(Fault::WrongKind);
    }
    Ok(named)
}

/// The method that the lookup gives: from an interface that of interface methods, and else that of methods.
fn method_from(set: &ClassSet, named: MemberName<'_>, class: u16) -> Option<MemberId>
    requires { IsClass set.now class }
    ensures method { result ≡ uses.method_from set.now (name_of named.entry) class }
    ensures member { IfSome result (IsMember set.now false) }
{
    if is_interface(set.class_flags(class)) {
        find_interface_method(set, class, named.name, named.descriptor)
    } else {
        find_method(set, class, named.name, named.descriptor)
    }
}

/// The method of this name, this descriptor and this class, with its type.
fn call_found(
    alloc: Global,
    set: &ClassSet,
    named: MethodName<'_>,
    class: u16,
) -> Result<Found, Fault>
    requires { IsClass set.now class }
    ensures tells { TellsBy (call_of named.entry) result (uses.call_found set.now (method_of named.entry) class) }
    ensures class { IfOk result (λ found. found.class ≡ class) }
    ensures member { IfOk result (λ found. IsMember set.now false found.method) }
{
    let descriptor = read_descriptor(alloc, named.member.descriptor)?;
    match method_from(set, named.member, class) {
        Some(method) => Ok(Found {
            class,
            method,
            descriptor,
        }),
        None => Err(Fault::Unresolved),
    }
}

// ---- of the right kind

/// The method at a position of a file has code.
fn is_coded(file: &ClassFile, member: u16) -> bool
    ensures { result ≡ option_map_or (λ m. is_some m.code) (slice_get file.now.methods member) false }
{
    match file.methods.as_slice().get(usize::from(member)) {
        Some(method) => method.code.is_some(),
        None => false,
    }
}

/// The method has code, or is a native of the library.
pub(crate) fn has_code(set: &ClassSet, id: MemberId) -> bool
    requires { IsClass set.now id.class }
    ensures { result ≡ uses.has_code set.now id }
{
    id.class < FIRST_OWN || is_coded(set.file(id.class), id.member)
}

/// The call names a constructor.
fn is_constructor(named: MethodName<'_>) -> bool
    ensures { result ≡ bytes_eq named.entry.member.name.now uses.constructor_name }
{
    named.member.name == CONSTRUCTOR
}

/// The call fits its tag, names no initialiser of a class, and the method is static where a static one is
/// asked for.
fn fits_call(set: &ClassSet, of_class: bool, named: MethodName<'_>, found: &Found) -> bool
    ensures { result ≡ uses.fits_call set.now of_class (call_of named.entry found.now) }
{
    named.of_interface == is_interface(set.class_flags(found.class))
        && named.member.name != INITIALISER
        && of_class == is_static(set.method_flags(found.method))
}

/// What invokespecial calls: a constructor, a private method and one of the current class itself; for one of a
/// superclass that which the direct superclass selects.
fn special_target(
    set: &ClassSet,
    from: u16,
    named: MethodName<'_>,
    found: &Found,
) -> Option<MemberId>
    requires { IsMember set.now false found.now.method }
    ensures target { result ≡ uses.special_target set.now from (call_of named.entry found.now) }
    ensures member { IfSome result (IsMember set.now false) }
{
    if is_constructor(named)
        || is_private(set.method_flags(found.method))
        || found.method.class == from
    {
        return Some(found.method);
    }
    let upper = set.superclass_of(from)?;
    select(set, upper, named.member.name, named.member.descriptor)
}

/// It is there and has code.
fn has_target(set: &ClassSet, target: Option<MemberId>) -> bool
    requires { IfSome target (IsMember set.now false) }
    ensures { result ≡ uses.has_target set.now target }
{
    match target {
        Some(id) => has_code(set, id),
        None => false,
    }
}

/// An invokespecial names a constructor, or a method of the current class or of one above it; what it names
/// and what it calls have code.
fn fits_special(set: &ClassSet, from: u16, named: MethodName<'_>, found: &Found) -> bool
    requires from { IsClass set.now from }
    requires class { IsClass set.now found.now.class }
    requires member { IsMember set.now false found.now.method }
    ensures { result ≡ uses.fits_special set.now from (call_of named.entry found.now) }
{
    (is_constructor(named) || is_subclass(set, from, found.class))
        && has_code(set, found.method)
        && has_target(set, special_target(set, from, named, found))
}

/// The argument places of an instance method, the receiver's with them, are so many.
fn has_places(count: u8, descriptor: &Descriptor) -> bool
    ensures { result ≡ nat_eq count (uses.argument_places descriptor.now) }
{
    0 < count && usize::from(count - 1) == descriptor.params.len()
}

/// What is found is of the kind that the call needs.
fn fits(set: &ClassSet, from: u16, invoke: Invoke, named: MethodName<'_>, found: &Found) -> bool
    requires from { IsClass set.now from }
    requires class { IsClass set.now found.now.class }
    requires member { IsMember set.now false found.now.method }
    ensures { result ≡ fits_of set.now from invoke (call_of named.entry found.now) }
{
    match invoke {
        Invoke::Virtual => fits_call(set, false, named, found) && !is_constructor(named),
        Invoke::Special => {
            fits_call(set, false, named, found) && fits_special(set, from, named, found)
        }
        Invoke::Static => fits_call(set, true, named, found) && !is_constructor(named),
        Invoke::Interface(count) => {
            fits_call(set, false, named, found)
                && !is_constructor(named)
                && has_places(count, &found.descriptor)
        }
    }
}

// ---- the calls

/// The class may use the class that is named, and the method.
fn may_use_method(set: &ClassSet, from: u16, found: &Found) -> bool
    requires from { IsClass set.now from }
    requires class { IsClass set.now found.now.class }
    requires member { IsMember set.now false found.now.method }
    ensures { result ≡ (may_use_class_of set.now from found.now.class && is_allowed_of set.now from false found.now.method) }
{
    may_use_class(set, from, found.class) && is_allowed(set, from, false, found.method)
}

/// Tests that what is found is of the kind that the call needs, and that the class may use it.
fn test_call(
    set: &ClassSet,
    from: u16,
    invoke: Invoke,
    named: MethodName<'_>,
    found: &Found,
) -> Result<(), Fault>
    requires from { IsClass set.now from }
    requires class { IsClass set.now found.now.class }
    requires member { IsMember set.now false found.now.method }
    ensures { TellsBy (λ _. call_of named.entry found.now) result (and_then (λ call. where_passes (uses.may_use_method set.now from call) cause.Denied call) (where_passes (fits_of set.now from invoke (call_of named.entry found.now)) cause.WrongKind (call_of named.entry found.now))) }
{
    if !fits(set, from, invoke, named, found) {
        return Err(Fault::WrongKind);
    }
    if !may_use_method(set, from, found) {
        return Err(Fault::Denied);
    }
    Ok(())
}

/// The method that a call of this kind calls.
fn target_of(
    set: &ClassSet,
    from: u16,
    invoke: Invoke,
    named: MethodName<'_>,
    found: &Found,
) -> Option<MemberId>
    requires { IsMember set.now false found.now.method }
    ensures { result ≡ target_of_call set.now from invoke (call_of named.entry found.now) }
{
    match invoke {
        Invoke::Special => special_target(set, from, named, found),
        _ => Some(found.method),
    }
}

/// The use of the method that the call names, which calls this one.
fn use_of(
    alloc: Global,
    set: &ClassSet,
    named: MethodName<'_>,
    found: Found,
    target: MemberId,
) -> Result<MethodUse, Fault>
    ensures { Tells result (Ok (uses.use_of set.now (call_of named.entry found) target)) }
{
    let name = Vec::from_slice(alloc, named.member.name)?;
    Ok(MethodUse {
        method: target,
        name: Items::from_vec(name),
        descriptor: found.descriptor,
        class: found.class,
        private: is_private(set.method_flags(found.method)),
    })
}

/// The call that the entry at an index makes.
pub(crate) fn method_used(
    alloc: Global,
    set: &ClassSet,
    from: u16,
    pool: &Pool,
    invoke: Invoke,
    index: u16,
) -> Result<MethodUse, Fault>
    requires { IsClass set.now from }
    ensures { Tells result (used_by set.now from pool.now invoke index) }
{
    let named = match call_named(pool, invoke, index) {
        Ok(named) => named,
        Err(why) => return Err(why),
    };
    let class = class_named(set, named.member.class)?;
    let found = call_found(alloc, set, named, class)?;
    test_call(set, from, invoke, named, &found)?;
    match target_of(set, from, invoke, named, &found) {
        Some(target) => use_of(alloc, set, named, found, target),
        None => Err(Fault::WrongKind),
    }
}
