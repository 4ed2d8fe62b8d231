//! What the ids of types and methods name: below 32 the library, from 32 on the entries.

ghost use Rattle.std.specs.Prelude.{◌≡◌, ◌-◌, ◌≤◌, slice_get, length, option_copied};
ghost use Rattle.image_form.specs.Reading.{names_main};
ghost use Rattle.library.specs.Classes.{is_library_class};
ghost use Rattle.image_form.specs.Library.{is_interface, names_type, names_class, names_parent, names_interface, refs_of, nums_of, library_signatures, signature_in};

use crate::record::{ClassEntry, Method, TypeEntry};
use image_instr::Sig;
use library::{CLASS_COUNT, FIRST_OWN};

/// The library has a type of this id.
fn is_library_type(id: u16) -> bool
    ensures { result ≡ is_library_class id }
{
    id < CLASS_COUNT
}

/// The entry of a type that is not the library's.
fn entry_of(types: &[TypeEntry], id: u16) -> Option<&TypeEntry>
    requires { 32 ≤ id }
    ensures { option_copied result ≡ slice_get types.now (id - 32) }
{
    types.get(usize::from(id - FIRST_OWN))
}

/// The class is an interface.
fn is_interface(class: &ClassEntry) -> bool
    ensures { result ≡ is_interface class.now }
{
    class.flags % 2 == 1
}

/// The id names a type.
pub fn names_type(types: &[TypeEntry], id: u16) -> bool
    ensures { result ≡ names_type types.now id }
{
    if id < FIRST_OWN {
        return is_library_type(id);
    }
    usize::from(id - FIRST_OWN) < types.len()
}

/// The id names a class or an interface.
pub(crate) fn names_class(types: &[TypeEntry], id: u16) -> bool
    ensures { result ≡ names_class types.now id }
{
    if id < FIRST_OWN {
        return is_library_type(id);
    }
    matches!(entry_of(types, id), Some(TypeEntry::Class(_)))
}

/// The id names a class and no interface.
pub(crate) fn names_parent(types: &[TypeEntry], id: u16) -> bool
    ensures { result ≡ names_parent types.now id }
{
    if id < FIRST_OWN {
        return is_library_type(id);
    }
    match entry_of(types, id) {
        Some(TypeEntry::Class(class)) => !is_interface(class),
        _ => false,
    }
}

/// The id names an interface.
pub fn names_interface(types: &[TypeEntry], id: u16) -> bool
    ensures { result ≡ names_interface types.now id }
{
    if id < FIRST_OWN {
        return false;
    }
    match entry_of(types, id) {
        Some(TypeEntry::Class(class)) => is_interface(class),
        _ => false,
    }
}

/// How many reference fields an object of this type has.
pub(crate) fn refs_of(types: &[TypeEntry], id: u16) -> u16
    ensures { result ≡ refs_of types.now id }
{
    if id < FIRST_OWN {
        return 0;
    }
    match entry_of(types, id) {
        Some(TypeEntry::Class(class)) => class.refs,
        _ => 0,
    }
}

/// How many cells the other fields of an object of this type take.
pub(crate) fn nums_of(types: &[TypeEntry], id: u16) -> u16
    ensures { result ≡ nums_of types.now id }
{
    if id < FIRST_OWN {
        return 0;
    }
    match entry_of(types, id) {
        Some(TypeEntry::Class(class)) => class.nums,
        _ => 0,
    }
}

/// The signature of a method of the library: 0 the constructor, 1 write, 2 read, 3 print.
fn library_signature(id: u16) -> Option<Sig>
    ensures { result ≡ slice_get library_signatures id }
{
    let (refs, cells, result) = match id {
        0 => (1, 0, 0),
        1 => (0, 2, 0),
        2 => (0, 0, 3),
        3 => (0, 2, 0),
        _ => return None,
    };
    Some(Sig {
        refs,
        cells,
        result,
    })
}

/// The signature of a method.
pub fn signature_in(methods: &[Method], id: u16) -> Option<Sig>
    ensures { result ≡ signature_in methods.now id }
{
    if id < FIRST_OWN {
        return library_signature(id);
    }
    let method = methods.get(usize::from(id - FIRST_OWN))?;
    Some(method.sig)
}

/// The id is that of a method of the image without arguments and result.
pub(crate) fn names_main(methods: &[Method], id: u16) -> bool
    ensures { result ≡ names_main methods.now id }
{
    if id < FIRST_OWN {
        return false;
    }
    match methods.get(usize::from(id - FIRST_OWN)) {
        Some(method) => method.sig.refs == 0 && method.sig.cells == 0 && method.sig.result == 0,
        None => false,
    }
}
