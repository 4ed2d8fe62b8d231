//! Methods and types in the order of their ids, over the bodies of a set.

ghost use Rattle.std.specs.Prelude.{◌≡◌, ◌≤◌, [], ◌∷◌, ◌++◌, true, false, nat_lt, map, filter, length, OnOk, IfOk, IfErr};
ghost use Rattle.std.specs.List.{fold};
ghost use Rattle.std.specs.List.Sorted.{IsPartitionPoint};
ghost use Rattle.class_tree.specs.Subtypes.{class_type as type_of_class};
ghost use Rattle.jvm_model.specs.ImageNumbering.{with_body};
ghost use Rattle.infuse_ids.specs.declared.refusal.IdsRefusal.TheVariants.{Memory};
ghost use Rattle.infuse_ids.specs.Orders.{AreByClass, bodies_of_class, method_of_body, methods_over, class_types as types_of_classes, types_over};

use crate::refusal::IdsRefusal;
use crate::types::add_body;
use body_form::Body;
use class_pool::{MemberId, TypeBase, TypeRef};
use jvm_model::{MemberList, TypeList};
use std::alloc::{AllocError, Global};

/// How many bodies are of classes below a number.
fn count_below(bodies: &[Body], class: u32) -> usize
    requires { AreByClass bodies.now }
    ensures within { result ≤ length bodies.now }
    ensures point { IsPartitionPoint (λ body. nat_lt body.class class ≡ true) (λ body. nat_lt body.class class ≡ false) bodies.now result }
{
    bodies.partition_point(|body| u32::from(body.class) < class)
}

/// The bodies of the methods of a class.
fn bodies_of(bodies: &[Body], class: u16) -> &[Body]
    requires { AreByClass bodies.now }
    ensures { result.now ≡ bodies_of_class bodies.now class }
{
    let start = count_below(bodies, u32::from(class));
    let end = count_below(bodies, u32::from(class) + 1);
    &bodies[start..end]
}

/// Adds a method that is not there. One that is there, as no two bodies of a set are of one method, is answered as want
/// of memory.
fn add_method(methods: &mut MemberList, method: MemberId) -> Result<(), IdsRefusal>
    ensures added { OnOk result (methods.new ≡ methods.old ++ method ∷ []) }
    ensures memory { IfErr result (λ why. why ≡ Memory) }
{
    if !methods.push(method)? {
        return Err(IdsRefusal::Memory);
    }
    Ok(())
}

/// Adds the methods of these bodies.
fn add_methods(methods: &mut MemberList, bodies: &[Body]) -> Result<(), IdsRefusal>
    ensures added { OnOk result (methods.new ≡ methods.old ++ map method_of_body bodies.now) }
    ensures memory { IfErr result (λ why. why ≡ Memory) }
{
    for body in bodies {
        match add_method(
            methods,
            MemberId {
                class: body.class,
                member: body.method,
            },
        ) {
            Ok(()) => {}
            Err(why) => return Err(why),
        }
    }
    Ok(())
}

/// The methods that have bodies, over the classes in their order.
pub(crate) fn method_order(
    alloc: Global,
    order: &[u16],
    bodies: &[Body],
) -> Result<MemberList, IdsRefusal>
    requires { AreByClass bodies.now }
    ensures methods { IfOk result (λ methods. methods ≡ methods_over order.now bodies.now) }
    ensures memory { IfErr result (λ why. why ≡ Memory) }
{
    let mut methods = MemberList::new(alloc);
    for class in order {
        match add_methods(&mut methods, bodies_of(bodies, *class)) {
            Ok(()) => {}
            Err(why) => return Err(why),
        }
    }
    Ok(methods)
}

/// The type of a class.
fn class_type(class: u16) -> TypeRef
    ensures { result ≡ type_of_class class }
{
    TypeRef {
        dims: 0,
        base: TypeBase::Class(class),
    }
}

/// The types of these classes.
fn class_types(alloc: Global, order: &[u16]) -> Result<TypeList, AllocError>
    ensures { IfOk result (λ types. types ≡ types_of_classes order.now) }
{
    let mut types = TypeList::new(alloc);
    for class in order {
        match types.add(class_type(*class)) {
            Ok(()) => {}
            Err(why) => return Err(why),
        }
    }
    Ok(types)
}

/// Adds the types that these bodies show.
fn add_bodies(types: &mut TypeList, bodies: &[Body]) -> Result<(), AllocError>
    ensures { OnOk result (types.new ≡ fold with_body types.old bodies.now) }
{
    for body in bodies {
        match add_body(types, body) {
            Ok(()) => {}
            Err(why) => return Err(why),
        }
    }
    Ok(())
}

/// The types of the classes in their order, and then those that their bodies show.
pub(crate) fn type_order(
    alloc: Global,
    order: &[u16],
    bodies: &[Body],
) -> Result<TypeList, AllocError>
    requires { AreByClass bodies.now }
    ensures { IfOk result (λ types. types ≡ types_over order.now bodies.now) }
{
    let mut types = match class_types(alloc, order) {
        Ok(types) => types,
        Err(why) => return Err(why),
    };
    for class in order {
        match add_bodies(&mut types, bodies_of(bodies, *class)) {
            Ok(()) => {}
            Err(why) => return Err(why),
        }
    }
    Ok(types)
}
