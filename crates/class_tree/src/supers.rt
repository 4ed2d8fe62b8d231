//! What stands directly above each class: whether the set has it, and whether it may stand there (JVMS 4.1).

ghost use Rattle.std.specs.Prelude.{◌≡◌, ℕ, ◌≤◌, None, Some, length, is_none, ◌<◌, ◌+◌, IfSome, IfErr, OnOk};
ghost use Rattle.std.specs.List.{list_any};
ghost use Rattle.class_tree.specs.Set.{named_among, flags_of as flags_of_class};
ghost use Rattle.class_tree.specs.Supers.{lacks_super as lacks_super_of, is_bad_superclass as is_bad_superclass_of, is_bad_interface as is_bad_interface_of, has_bad_super as has_bad_super_of, super_fault as super_fault_of, supers_refusal};

use crate::names::Names;
use crate::refusal::TreeRefusal;
use class_file::{ClassFile, is_final, is_interface};
use library::FIRST_OWN;

/// The flags of the classes of the library: ACC_PUBLIC.
const LIBRARY_FLAGS: u16 = 0x0001;

/// The flags of a class by its number.
pub(crate) fn flags_of(files: &[ClassFile], class: u16) -> u16
    ensures { result ≡ flags_of_class files.now class }
{
    if class < FIRST_OWN {
        return LIBRARY_FLAGS;
    }
    match files.get(usize::from(class - FIRST_OWN)) {
        Some(file) => file.flags,
        None => LIBRARY_FLAGS,
    }
}

/// The class that an entry of the file's pool names, where the set has it.
pub(crate) fn named(names: &Names, file: &ClassFile, index: u16) -> Option<u16>
    requires { length names.now ≤ 512 }
    ensures number { result ≡ named_among names.now file.now index }
    ensures within { IfSome result (λ class. class < 32 + length names.now) }
{
    match file.pool.class_name(index) {
        Some(name) => names.number_of(name),
        None => None,
    }
}

/// The superclass or a superinterface is absent.
fn lacks_super(names: &Names, file: &ClassFile) -> bool
    requires { length names.now ≤ 512 }
    ensures { result ≡ lacks_super_of names.now file.now }
{
    named(names, file, file.super_class).is_none()
        || lacks_one(names, file, file.interfaces.as_slice())
}

/// The set lacks a class that one of these entries names.
fn lacks_one(names: &Names, file: &ClassFile, indexes: &[u16]) -> bool
    requires { length names.now ≤ 512 }
    ensures { result ≡ list_any (λ index. is_none (named_among names.now file.now index)) indexes.now }
{
    indexes
        .iter()
        .any(|index| named(names, file, *index).is_none())
}

/// The class may not be the superclass of the file's class.
fn is_bad_superclass(files: &[ClassFile], file: &ClassFile, upper: Option<u16>) -> bool
    ensures { result ≡ is_bad_superclass_of files.now file.now upper }
{
    match upper {
        Some(upper) => {
            let flags = flags_of(files, upper);
            is_interface(flags) || is_final(flags) || is_interface(file.flags) && upper != 0
        }
        None => true,
    }
}

/// The class may not be a superinterface.
fn is_bad_interface(files: &[ClassFile], upper: Option<u16>) -> bool
    ensures { result ≡ is_bad_interface_of files.now upper }
{
    match upper {
        Some(upper) => !is_interface(flags_of(files, upper)),
        None => true,
    }
}

/// One of these entries names a class that may not be a superinterface.
fn has_bad_interface(names: &Names, files: &[ClassFile], file: &ClassFile, indexes: &[u16]) -> bool
    requires { length names.now ≤ 512 }
    ensures { result ≡ list_any (λ index. is_bad_interface_of files.now (named_among names.now file.now index)) indexes.now }
{
    indexes.iter().any(|index| is_bad_interface(files, named(names, file, *index)))
}

/// What the file is refused for by what stands directly above its class.
fn super_fault(
    names: &Names,
    files: &[ClassFile],
    position: u32,
    file: &ClassFile,
) -> Option<TreeRefusal>
    requires { length names.now ≤ 512 }
    ensures { result ≡ super_fault_of names.now files.now position file.now }
{
    if lacks_super(names, file) {
        return Some(TreeRefusal::MissingClass {
            file: position,
            member: 0,
            value: 0,
        });
    }
    let superclass = named(names, file, file.super_class);
    if is_bad_superclass(files, file, superclass)
        || has_bad_interface(names, files, file, file.interfaces.as_slice())
    {
        return Some(TreeRefusal::BadSuper { file: position });
    }
    None
}

/// Tests what stands directly above each class.
pub(crate) fn test_supers(names: &Names, files: &[ClassFile]) -> Result<(), TreeRefusal>
    requires names { length names.now ≤ 512 }
    requires files { length files.now ≤ 512 }
    ensures passed { OnOk result (supers_refusal names.now files.now ≡ None) }
    ensures refused { IfErr result (λ why. supers_refusal names.now files.now ≡ Some why) }
{
    for (position, file) in files.iter().enumerate() {
        match super_fault(names, files, position as u32, file) {
            Some(why) => return Err(why),
            None => {}
        }
    }
    Ok(())
}
