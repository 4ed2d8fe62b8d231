//! The rules of the flags, names and descriptors of fields and methods (JVMS 4.5, 4.6), as far as a
//! member shows them before its attributes.

ghost use Rattle.std.specs.Prelude.{◌≡◌};
ghost use Rattle.class_pool.specs.declared.descriptor.Descriptor.{Descriptor as Record};
ghost use Rattle.class_file.specs.Rules.{is_constructor, is_initialiser, fits_interface_method, is_static_method, fits_abstract, fits_special_name, fits_constructor, fits_initialiser, fits_slots};
ghost use Rattle.class_file.specs.ReadingMembers.{is_field_head, is_method_head};
ghost use Rattle.class_file.specs.Texts.{shape_of};

use crate::flags::{
    fits_interface_field, has_one_access, is_abstract, is_final, is_interface, is_native,
    is_private, is_public, is_static,
};
use crate::head::Head;
use crate::names::{is_special_name, is_text};
use crate::texts::MethodShape;
use class_pool::Pool;

/// How many argument places a method may take, `this` among them (JVMS 4.3.3).
const MOST_ARGUMENT_SLOTS: u16 = 255;

/// The flags of a field go together.
pub(crate) fn is_field_head(class_flags: u16, head: Head) -> bool
    ensures { result ≡ is_field_head class_flags head }
{
    has_one_access(head.flags) && fits_interface_field(class_flags, head.flags)
}

/// The method is `<init>`.
fn is_constructor(pool: &Pool, head: Head) -> bool
    ensures { result ≡ is_constructor pool.now head }
{
    is_text(pool, head.name, b"<init>")
}

/// The method is `<clinit>`.
fn is_initialiser(pool: &Pool, head: Head) -> bool
    ensures { result ≡ is_initialiser pool.now head }
{
    is_text(pool, head.name, b"<clinit>")
}

/// A method of an interface is public and abstract, unless it is `<clinit>`.
fn fits_interface_method(class_flags: u16, pool: &Pool, head: Head) -> bool
    ensures { result ≡ fits_interface_method class_flags pool.now head }
{
    !is_interface(class_flags)
        || is_initialiser(pool, head)
        || (is_public(head.flags) && is_abstract(head.flags))
}

/// The method has no `this`; `<clinit>` has none, whatever its flags.
fn is_static_method(pool: &Pool, head: Head) -> bool
    ensures { result ≡ is_static_method pool.now head }
{
    is_static(head.flags) || is_initialiser(pool, head)
}

/// An abstract method is not private, static or final.
fn fits_abstract(pool: &Pool, head: Head) -> bool
    ensures { result ≡ fits_abstract pool.now head }
{
    !is_abstract(head.flags)
        || !(is_private(head.flags) || is_static_method(pool, head) || is_final(head.flags))
}

/// A name that begins with `<` is `<init>` or `<clinit>` (JVMS 2.9).
fn fits_special_name(pool: &Pool, head: Head) -> bool
    ensures { result ≡ fits_special_name pool.now head }
{
    !is_special_name(pool, head.name) || is_constructor(pool, head) || is_initialiser(pool, head)
}

/// `<init>` is not static or abstract, and has no result.
fn fits_constructor(pool: &Pool, head: Head, shape: MethodShape) -> bool
    ensures { (type : Record) → shape ≡ shape_of type → result ≡ fits_constructor pool.now head type }
{
    !is_constructor(pool, head)
        || (!is_static(head.flags) && !is_abstract(head.flags) && !shape.has_result)
}

/// `<clinit>` has no parameters and no result.
fn fits_initialiser(pool: &Pool, head: Head) -> bool
    ensures { result ≡ fits_initialiser pool.now head }
{
    !is_initialiser(pool, head) || is_text(pool, head.descriptor, b"()V")
}

/// The parameters, and `this` where there is one, take at most 255 argument places (JVMS 4.3.3).
fn fits_slots(pool: &Pool, head: Head, shape: MethodShape) -> bool
    ensures { (type : Record) → shape ≡ shape_of type → result ≡ fits_slots pool.now head type }
{
    let most = if is_static_method(pool, head) {
        MOST_ARGUMENT_SLOTS
    } else {
        MOST_ARGUMENT_SLOTS - 1
    };
    shape.slots <= most
}

/// The flags, the name and the descriptor of a method go together.
pub(crate) fn is_method_head(class_flags: u16, pool: &Pool, head: Head, shape: MethodShape) -> bool
    ensures { (type : Record) → shape ≡ shape_of type → result ≡ is_method_head class_flags pool.now head type }
{
    has_one_access(head.flags)
        && fits_interface_method(class_flags, pool, head)
        && !is_native(head.flags)
        && fits_abstract(pool, head)
        && fits_special_name(pool, head)
        && fits_constructor(pool, head, shape)
        && fits_initialiser(pool, head)
        && fits_slots(pool, head, shape)
}
