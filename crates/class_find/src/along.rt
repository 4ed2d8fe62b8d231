//! The first member that the classes along a way declare.

ghost use Rattle.std.specs.Prelude.{◌≡◌, not, None, Some};
ghost use Rattle.class_file.specs.Rules.{is_private as is_private_flags};
ghost use Rattle.class_tree.specs.Members.{field_in, method_in, method_passing};
ghost use Rattle.class_tree.specs.Upwards.{first_answer};
ghost use Rattle.class_tree.specs.InterfaceLookup.{object, is_public_instance as is_public_instance_flags, interface_method_in as interface_method_of};
ghost use Rattle.class_tree.specs.Selection.{is_selectable as is_selectable_flags};

use class_file::{is_private, is_public, is_static};
use class_pool::MemberId;
use class_tree::ClassSet;

/// The number of `java/lang/Object`.
const OBJECT: u16 = 0;

/// The first field of this name and this descriptor along a way.
#[tactic(auto, using(crate::proofs::WayAnswers::along_more, crate::proofs::WayAnswers::along_here, crate::proofs::WayAnswers::along_end))]
pub(crate) fn field_along(
    set: &ClassSet,
    way: &[u16],
    name: &[u8],
    descriptor: &[u8],
) -> Option<MemberId>
    ensures { result ≡ first_answer (field_in set.now name.now descriptor.now) way.now }
{
    for class in way {
        match set.field_in(*class, name, descriptor) {
            Some(field) => return Some(field),
            None => {}
        }
    }
    None
}

/// The first method of this name and this descriptor along a way.
#[tactic(auto, using(crate::proofs::WayAnswers::along_more, crate::proofs::WayAnswers::along_here, crate::proofs::WayAnswers::along_end))]
pub(crate) fn method_along(
    set: &ClassSet,
    way: &[u16],
    name: &[u8],
    descriptor: &[u8],
) -> Option<MemberId>
    ensures { result ≡ first_answer (method_in set.now name.now descriptor.now) way.now }
{
    for class in way {
        match set.method_in(*class, name, descriptor) {
            Some(method) => return Some(method),
            None => {}
        }
    }
    None
}

/// The flags are those of a public method that is not static.
fn is_public_instance(flags: u16) -> bool
    ensures { result ≡ is_public_instance_flags flags }
{
    is_public(flags) && !is_static(flags)
}

/// The public instance method of `java/lang/Object` of this name and this descriptor.
fn object_method(set: &ClassSet, name: &[u8], descriptor: &[u8]) -> Option<MemberId>
    ensures { result ≡ method_passing is_public_instance_flags set.now name.now descriptor.now object }
{
    let method = set.method_in(OBJECT, name, descriptor)?;
    if is_public_instance(set.method_flags(method)) {
        Some(method)
    } else {
        None
    }
}

/// The method of an interface itself, or else of `java/lang/Object`.
fn interface_method_in(
    set: &ClassSet,
    interface: u16,
    name: &[u8],
    descriptor: &[u8],
) -> Option<MemberId>
    ensures { result ≡ interface_method_of set.now name.now descriptor.now interface }
{
    match set.method_in(interface, name, descriptor) {
        Some(method) => Some(method),
        None => object_method(set, name, descriptor),
    }
}

/// The first method along a way of interfaces.
#[tactic(auto, using(crate::proofs::WayAnswers::along_more, crate::proofs::WayAnswers::along_here, crate::proofs::WayAnswers::along_end))]
pub(crate) fn interface_method_along(
    set: &ClassSet,
    way: &[u16],
    name: &[u8],
    descriptor: &[u8],
) -> Option<MemberId>
    ensures { result ≡ first_answer (interface_method_of set.now name.now descriptor.now) way.now }
{
    for interface in way {
        match interface_method_in(set, *interface, name, descriptor) {
            Some(method) => return Some(method),
            None => {}
        }
    }
    None
}

/// The flags are those of a method that is neither private nor static.
fn is_selectable(flags: u16) -> bool
    ensures { result ≡ is_selectable_flags flags }
{
    !is_private(flags) && !is_static(flags)
}

/// The method that a class declares, where it is neither private nor static.
fn selectable_in(set: &ClassSet, class: u16, name: &[u8], descriptor: &[u8]) -> Option<MemberId>
    ensures { result ≡ method_passing is_selectable_flags set.now name.now descriptor.now class }
{
    let method = set.method_in(class, name, descriptor)?;
    if is_selectable(set.method_flags(method)) {
        Some(method)
    } else {
        None
    }
}

/// The first method along a way that is neither private nor static.
#[tactic(auto, using(crate::proofs::WayAnswers::along_more, crate::proofs::WayAnswers::along_here, crate::proofs::WayAnswers::along_end))]
pub(crate) fn selectable_along(
    set: &ClassSet,
    way: &[u16],
    name: &[u8],
    descriptor: &[u8],
) -> Option<MemberId>
    ensures { result ≡ first_answer (method_passing is_selectable_flags set.now name.now descriptor.now) way.now }
{
    for class in way {
        match selectable_in(set, *class, name, descriptor) {
            Some(method) => return Some(method),
            None => {}
        }
    }
    None
}

/// The method that a class declares, where it is not private.
fn open_in(set: &ClassSet, class: u16, name: &[u8], descriptor: &[u8]) -> Option<MemberId>
    ensures { result ≡ method_passing (λ flags. not (is_private_flags flags)) set.now name.now descriptor.now class }
{
    let method = set.method_in(class, name, descriptor)?;
    if is_private(set.method_flags(method)) {
        None
    } else {
        Some(method)
    }
}

/// The first method along a way that is not private.
#[tactic(auto, using(crate::proofs::WayAnswers::along_more, crate::proofs::WayAnswers::along_here, crate::proofs::WayAnswers::along_end))]
pub(crate) fn open_along(
    set: &ClassSet,
    way: &[u16],
    name: &[u8],
    descriptor: &[u8],
) -> Option<MemberId>
    ensures { result ≡ first_answer (method_passing (λ flags. not (is_private_flags flags)) set.now name.now descriptor.now) way.now }
{
    for class in way {
        match open_in(set, *class, name, descriptor) {
            Some(method) => return Some(method),
            None => {}
        }
    }
    None
}
