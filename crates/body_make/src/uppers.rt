//! What a class selects for the methods of the classes and interfaces above it. Each rule looks once at each
//! method of each of these that has a file, and each such look goes up the superclasses of the class once.

ghost use Rattle.std.specs.Prelude.{◌≡◌, ◌≤◌, ◌<◌, ◌-◌, ◌&&◌, false, length};
ghost use Rattle.std.specs.List.{list_any};
ghost use Rattle.class_tree.specs.Set.{IsClass};
ghost use Rattle.class_tree.specs.Members.{in_file, methods_of};
ghost use Rattle.class_tree.specs.AccessTests.{is_subclass as is_subclass_of};
ghost use Rattle.jvm_model.specs.Overrides.{hides_method as hides_method_of, hides_methods_of as hides_methods_of_interface, hides_interface as hides_interface_of, lacks_body as lacks_body_of, lacks_bodies as lacks_bodies_of};

use crate::calls::has_code;
use crate::methods::{is_special_name, text_at};
use crate::type_test::is_subclass;
use class_file::{Member, is_abstract, is_interface, is_public};
use class_find::select;
use class_pool::Pool;
use class_tree::ClassSet;
use library::FIRST_OWN;

// ---- methods of interfaces

/// The class selects a method that is not public for this method of an interface.
fn hides_method(set: &ClassSet, class: u16, pool: &Pool, method: &Member) -> bool
    requires { IsClass set.now class }
    ensures { result ≡ hides_method_of set.now class (in_file pool.now method.now) }
{
    let name = text_at(pool, method.name);
    if is_special_name(name) {
        return false;
    }
    match select(set, class, name, text_at(pool, method.descriptor)) {
        Some(selected) => !is_public(set.method_flags(selected)),
        None => false,
    }
}

/// It does so for one of these.
fn hides_one(set: &ClassSet, class: u16, pool: &Pool, methods: &[Member]) -> bool
    requires { IsClass set.now class }
    ensures { result ≡ list_any (λ method. hides_method_of set.now class (in_file pool.now method)) methods.now }
{
    methods
        .iter()
        .any(|method| hides_method(set, class, pool, method))
}

/// The class that has a file is an interface, for a method of which a class below it selects one that is not
/// public.

fn hides_methods_of(set: &ClassSet, class: u16, interface: u16) -> bool
    requires class { IsClass set.now class }
    requires own { 32 ≤ interface }
    requires within { interface - 32 < length set.now }
    ensures { result ≡ hides_methods_of_interface set.now class interface }
{
    let file = set.file(interface);
    is_interface(set.class_flags(interface))
        && hides_one(set, class, &file.pool, file.methods.as_slice())
}

/// The class that has a file is such an interface above the class.
fn hides_from(set: &ClassSet, class: u16, upper: u16) -> bool
    requires class { IsClass set.now class }
    requires own { 32 ≤ upper }
    requires within { upper - 32 < length set.now }
    ensures { result ≡ (is_subclass_of set.now class upper && hides_methods_of_interface set.now class upper) }
{
    is_subclass(set, class, upper) && hides_methods_of(set, class, upper)
}

/// The class implements an interface, for a method of which it selects one that is not public.
pub(crate) fn hides_interface(set: &ClassSet, class: u16) -> bool
    requires { IsClass set.now class }
    ensures { result ≡ hides_interface_of set.now class }
{
    for position in 0..set.file_count() {
        let upper = FIRST_OWN + position;
        if hides_from(set, class, upper) {
            return true;
        }
    }
    false
}

// ---- bodies

/// The method is abstract, and the class selects none with code for it.
fn lacks_body(set: &ClassSet, class: u16, pool: &Pool, method: &Member) -> bool
    requires { IsClass set.now class }
    ensures { result ≡ lacks_body_of set.now class (in_file pool.now method.now) }
{
    if !is_abstract(method.flags) {
        return false;
    }
    let name = text_at(pool, method.name);
    match select(set, class, name, text_at(pool, method.descriptor)) {
        Some(selected) => !has_code(set, selected),
        None => true,
    }
}

/// One of these is so.
fn lacks_one(set: &ClassSet, class: u16, pool: &Pool, methods: &[Member]) -> bool
    requires { IsClass set.now class }
    ensures { result ≡ list_any (λ method. lacks_body_of set.now class (in_file pool.now method)) methods.now }
{
    methods
        .iter()
        .any(|method| lacks_body(set, class, pool, method))
}

/// The class lacks the body of a method of a class that has a file.

fn lacks_body_above(set: &ClassSet, class: u16, upper: u16) -> bool
    requires class { IsClass set.now class }
    requires own { 32 ≤ upper }
    requires within { upper - 32 < length set.now }
    ensures { result ≡ list_any (lacks_body_of set.now class) (methods_of set.now upper) }
{
    let file = set.file(upper);
    lacks_one(set, class, &file.pool, file.methods.as_slice())
}

/// The class that has a file is above the class, which lacks the body of one of its methods.
fn lacks_from(set: &ClassSet, class: u16, upper: u16) -> bool
    requires class { IsClass set.now class }
    requires own { 32 ≤ upper }
    requires within { upper - 32 < length set.now }
    ensures { result ≡ (is_subclass_of set.now class upper && list_any (lacks_body_of set.now class) (methods_of set.now upper)) }
{
    is_subclass(set, class, upper) && lacks_body_above(set, class, upper)
}

/// A class that is not abstract lacks the body of a method that it or a class or interface above it declares.
pub(crate) fn lacks_bodies(set: &ClassSet, class: u16) -> bool
    requires { IsClass set.now class }
    ensures { result ≡ lacks_bodies_of set.now class }
{
    if is_abstract(set.class_flags(class)) {
        return false;
    }
    for position in 0..set.file_count() {
        let upper = FIRST_OWN + position;
        if lacks_from(set, class, upper) {
            return true;
        }
    }
    false
}
