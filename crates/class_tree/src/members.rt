//! The fields and the methods that a class declares.

ghost use Rattle.std.specs.Prelude.{◌≡◌, ◌≤◌, ◌<◌, true, false, [], None, Some, length, map, position, unwrap_or, option_map, IfSome, OnOk, MatchBool};
ghost use Rattle.std.specs.List.{list_all};
ghost use Rattle.class_pool.specs.Pool.{utf8_at};
ghost use Rattle.library.specs.Members.{methods_of as natives_of};
ghost use Rattle.class_tree.specs.Members.{is_called as is_called_so, in_file, in_library, member_at, flags_at as flags_at_position};
ghost use Rattle.class_tree.specs.Kept.{ArePositions};

use class_file::{ClassFile, Member};
use class_pool::{MemberId, Pool};
use library::{Native, methods_of};

/// The text at an index; empty where there is none.
pub(crate) fn text_at(pool: &Pool, index: u16) -> &[u8]
    ensures { result.now ≡ unwrap_or (utf8_at pool.now index) [] }
{
    match pool.utf8(index) {
        Some(text) => text,
        None => &[],
    }
}

/// The native has this name and this descriptor.
fn is_native_called(native: Native, name: &[u8], descriptor: &[u8]) -> bool
    ensures { result ≡ is_called_so name.now descriptor.now (in_library native) }
{
    name == native.name() && descriptor == native.descriptor()
}

/// The position of the method of this name and this descriptor of a class of the library.
#[tactic(auto, using(crate::proofs::tables::Finding::position_map))]
pub(crate) fn native_position(class: u16, name: &[u8], descriptor: &[u8]) -> Option<usize>
    ensures { result ≡ position (is_called_so name.now descriptor.now) (map in_library (natives_of class)) }
{
    methods_of(class)
        .iter()
        .position(|native| is_native_called(*native, name, descriptor))
}

/// The member of a class at a position, where there is one.
pub(crate) fn member_of(class: u16, position: Option<usize>) -> Option<MemberId>
    requires { IfSome position (λ n. n < 65536) }
    ensures { result ≡ option_map (member_at class) position }
{
    match position {
        Some(position) => Some(MemberId {
            class,
            member: position as u16,
        }),
        None => None,
    }
}

/// Positions of members fit two bytes, as they do in each class file.
pub(crate) fn are_positions(files: &[ClassFile]) -> bool
    ensures { result ≡ true → ArePositions files.now }
{
    files.iter().all(|file| file.fields.len() <= 65535 && file.methods.len() <= 65535)
}

/// The flags of the member at a position; 0 where there is none.
pub(crate) fn flags_at(pool: &Pool, members: &[Member], position: u16) -> u16
    ensures { result ≡ flags_at_position (map (in_file pool.now) members.now) position }
{
    match members.get(usize::from(position)) {
        Some(member) => member.flags,
        None => 0,
    }
}

/// The flags of the method at a position of a class of the library; 0 where there is none.
pub(crate) fn native_flags(class: u16, position: u16) -> u16
    ensures { result ≡ flags_at_position (map in_library (natives_of class)) position }
{
    match methods_of(class).get(usize::from(position)) {
        Some(native) => native.flags(),
        None => 0,
    }
}
