//! The lookups of fields and methods, and the selection of a method.

ghost use Rattle.std.specs.Prelude.{◌≡◌, true, false, IfSome};
ghost use Rattle.class_tree.specs.Set.{IsClass};
ghost use Rattle.class_tree.specs.Members.{IsMember};
ghost use Rattle.class_tree.specs.FieldLookup.{find_field as find_field_of};
ghost use Rattle.class_tree.specs.MethodLookup.{find_method as find_method_of};
ghost use Rattle.class_tree.specs.InterfaceLookup.{find_interface_method as find_interface_method_of};
ghost use Rattle.class_tree.specs.Selection.{select as select_of};

use crate::along::{field_along, interface_method_along, method_along, selectable_along};
use class_pool::MemberId;
use class_tree::ClassSet;

/// The name of constructors (JVMS 2.9).
const CONSTRUCTOR: &[u8] = b"<init>";

/// The field of this name and this descriptor from a class on (JVMS 5.4.3.2): that of the class, or else the
/// first from its direct superinterfaces on, or else that from its superclass on.
pub fn find_field(set: &ClassSet, class: u16, name: &[u8], descriptor: &[u8]) -> Option<MemberId>
    requires { IsClass set.now class }
    ensures found { result ≡ find_field_of set.now name.now descriptor.now class }
    ensures member { IfSome result (λ id. IsMember set.now true id) }
{
    field_along(set, set.field_way(class), name, descriptor)
}

/// The method of this name and this descriptor from a class on.
fn method_from(set: &ClassSet, class: u16, name: &[u8], descriptor: &[u8]) -> Option<MemberId>
    requires { IsClass set.now class }
    ensures { result ≡ find_method_of set.now name.now descriptor.now class }
{
    if name == CONSTRUCTOR {
        return set.method_in(class, name, descriptor);
    }
    match method_along(set, set.superclass_way(class), name, descriptor) {
        Some(method) => Some(method),
        None => interface_method_along(set, set.beside_way(class), name, descriptor),
    }
}

/// The method of this name and this descriptor from a class on (JVMS 5.4.3.3): that of the class or else of
/// the nearest superclass, or else that of a superinterface. A constructor is that of the class alone.
pub fn find_method(set: &ClassSet, class: u16, name: &[u8], descriptor: &[u8]) -> Option<MemberId>
    requires { IsClass set.now class }
    ensures found { result ≡ find_method_of set.now name.now descriptor.now class }
    ensures member { IfSome result (λ id. IsMember set.now false id) }
{
    method_from(set, class, name, descriptor)
}

/// The method of this name and this descriptor from an interface on (JVMS 5.4.3.4): that of the interface, or
/// else the public instance method of `java/lang/Object`, or else the first from its direct superinterfaces
/// on.
pub fn find_interface_method(
    set: &ClassSet,
    class: u16,
    name: &[u8],
    descriptor: &[u8],
) -> Option<MemberId>
    requires { IsClass set.now class }
    ensures found { result ≡ find_interface_method_of set.now name.now descriptor.now class }
    ensures member { IfSome result (λ id. IsMember set.now false id) }
{
    interface_method_along(set, set.interface_way(class), name, descriptor)
}

/// The method that a call selects by the class of its receiver (JVMS 5.4.6): the first of this name and this
/// descriptor that is neither private nor static, from the class upwards through its superclasses.
pub fn select(set: &ClassSet, class: u16, name: &[u8], descriptor: &[u8]) -> Option<MemberId>
    requires { IsClass set.now class }
    ensures found { result ≡ select_of set.now name.now descriptor.now class }
    ensures member { IfSome result (λ id. IsMember set.now false id) }
{
    selectable_along(set, set.superclass_way(class), name, descriptor)
}
