//! The superclass and the superinterfaces of each class, by number.

ghost use Rattle.std.specs.Prelude.{◌≡◌, ◌≤◌, ◌<◌, ◌+◌, ◌++◌, ℕ, [], length, OnOk, IfOk};
ghost use Rattle.std.specs.Option.{option_to_list};
ghost use Rattle.std.specs.List.{filter_map};
ghost use Rattle.class_tree.specs.Set.{named_among};
ghost use Rattle.class_tree.specs.DirectSupers.{superclass_among, superinterfaces_among, above_by};
ghost use Rattle.class_tree.specs.Ways.{seen_after, way_at};

use crate::names::Names;
use crate::supers::named;
use crate::way::Way;
use class_file::ClassFile;
use library::{FIRST_OWN, superclass_of};
use std::alloc::{AllocError, Global};

/// Which of the classes directly above a class a lookup goes up to.
#[derive(Clone, Copy, Debug)]
pub(crate) enum Route {
    Superclass,
    Superinterfaces,
    /// The superinterfaces, and then the superclass.
    Both,
}

/// The superclass of a class, where it has one.
fn superclass(names: &Names, files: &[ClassFile], class: usize) -> Option<u16>
    requires { length names.now ≤ 512 }
    ensures { result ≡ superclass_among names.now files.now class }
{
    if class < usize::from(FIRST_OWN) {
        return superclass_of(class as u16);
    }
    match files.get(class - usize::from(FIRST_OWN)) {
        Some(file) => named(names, file, file.super_class),
        None => None,
    }
}

/// Adds the classes that these entries of the file name.
fn add_named(
    names: &Names,
    file: &ClassFile,
    indexes: &[u16],
    way: &mut Way,
) -> Result<(), AllocError>
    requires { length names.now ≤ 512 }
    ensures { OnOk result (way.new ≡ seen_after way.old (filter_map (named_among names.now file.now) indexes.now)) }
{
    for index in indexes {
        way.add(named(names, file, *index))?;
    }
    Ok(())
}

/// Adds the superinterfaces of a class.
fn add_superinterfaces(
    names: &Names,
    files: &[ClassFile],
    class: usize,
    way: &mut Way,
) -> Result<(), AllocError>
    requires { length names.now ≤ 512 }
    ensures { OnOk result (way.new ≡ seen_after way.old (superinterfaces_among names.now files.now class)) }
{
    if class < usize::from(FIRST_OWN) {
        return Ok(());
    }
    match files.get(class - usize::from(FIRST_OWN)) {
        Some(file) => add_named(names, file, file.interfaces.as_slice(), way),
        None => Ok(()),
    }
}

/// Adds the superinterfaces of a class, and then its superclass.
fn add_both(
    names: &Names,
    files: &[ClassFile],
    class: usize,
    both: &mut Way,
) -> Result<(), AllocError>
    requires { length names.now ≤ 512 }
    ensures { OnOk result (both.new ≡ seen_after both.old (superinterfaces_among names.now files.now class ++ option_to_list (superclass_among names.now files.now class))) }
{
    add_superinterfaces(names, files, class, both)?;
    both.add(superclass(names, files, class))?;
    Ok(())
}

/// The classes directly above a class, by a route.
fn above_way(
    alloc: Global,
    names: &Names,
    files: &[ClassFile],
    route: Route,
    class: usize,
) -> Result<Way, AllocError>
    requires { length names.now ≤ 512 }
    ensures { IfOk result (λ way. way ≡ seen_after [] (above_by route names.now files.now class)) }
{
    let mut way = Way::new(alloc);
    match route {
        Route::Superclass => {
            way.add(superclass(names, files, class))?;
            Ok(way)
        }
        Route::Superinterfaces => {
            add_superinterfaces(names, files, class, &mut way)?;
            Ok(way)
        }
        Route::Both => {
            add_both(names, files, class, &mut way)?;
            Ok(way)
        }
    }
}

/// The classes directly above each class, by a route.
pub(crate) fn above_ways(
    alloc: Global,
    names: &Names,
    files: &[ClassFile],
    route: Route,
) -> Result<Vec<Way>, AllocError>
    requires { length names.now ≤ 512 }
    ensures many { IfOk result (λ ways. length ways.items ≡ 32 + length names.now) }
    ensures each { IfOk result (λ ways. (class : ℕ) → class < 32 + length names.now → way_at ways.items class ≡ seen_after [] (above_by route names.now files.now class)) }
{
    let mut ways = Vec::new(alloc);
    for class in 0..usize::from(FIRST_OWN) + names.count() {
        let way = above_way(alloc, names, files, route, class)?;
        ways.push(way)?;
    }
    Ok(ways)
}
