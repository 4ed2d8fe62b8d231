//! The entry of a class.

ghost use Rattle.std.specs.Prelude.{◌≡◌, ◌<◌, ◌++◌, map, length, IfOk, OnOk};
ghost use Rattle.std.specs.Option.{option_map_or, option_to_list};
ghost use Rattle.class_tree.specs.DirectSupers.{superclass_of, superinterfaces_of as superinterfaces_of_class};
ghost use Rattle.class_tree.specs.Set.{IsClass, file_of as file_of_class, own_name as own_name_of};
ghost use Rattle.jvm_model.specs.ImageNumbering.{layout_of};
ghost use Rattle.jvm_model.specs.ImageTables.{class_entry_of, class_id as class_id_of, entry_flags as entry_flags_of, row_for as row_of, rows_of as rows_of_class};
ghost use Rattle.jvm_model.specs.NumberedIds.{numbers_of};

use class_file::{ClassFile, is_abstract, is_interface};
use class_find::select;
use class_pool::{TypeBase, TypeRef};
use class_tree::ClassSet;
use image_form::{ClassEntry, DispatchRow};
use infuse_ids::superinterfaces_of;
use item_list::Items;
use jvm_model::{Ids, Layout, Selector};
use std::alloc::{AllocError, Global};

/// The flags of the entry of a class: 1 for an interface, and 2 for an abstract class.
fn entry_flags(flags: u16) -> u8
    ensures { result ≡ entry_flags_of flags }
{
    let interface = if is_interface(flags) { 1 } else { 0 };
    let lacking = if is_abstract(flags) { 2 } else { 0 };
    interface + lacking
}

/// The id of a class.
pub(crate) fn class_id(ids: &Ids, class: u16) -> u16
    requires { length ids.now.types < 65504 }
    ensures { result ≡ class_id_of (numbers_of ids.now) class }
{
    ids.type_id(TypeRef {
        dims: 0,
        base: TypeBase::Class(class),
    })
}

/// The ids of classes.
fn class_ids(alloc: Global, ids: &Ids, classes: &[u16]) -> Result<Vec<u16>, AllocError>
    requires { length ids.now.types < 65504 }
    ensures { IfOk result (λ list. list.items ≡ map (class_id_of (numbers_of ids.now)) classes.now) }
{
    let mut list = Vec::new(alloc);
    for class in classes {
        list.push(class_id(ids, *class))?;
    }
    Ok(list)
}

/// The id of the superclass; 0 for a class that has none.
fn parent_of(set: &ClassSet, ids: &Ids, class: u16) -> u16
    requires { length ids.now.types < 65504 }
    ensures { result ≡ option_map_or (class_id_of (numbers_of ids.now)) (superclass_of set.now class) 0 }
{
    match set.superclass_of(class) {
        Some(upper) => class_id(ids, upper),
        None => 0,
    }
}

/// The row of a class for a selector by which it selects a method.
fn row_for(
    set: &ClassSet,
    ids: &Ids,
    class: u16,
    number: u16,
    selector: &Selector,
) -> Option<DispatchRow>
    requires class { IsClass set.now class }
    requires methods { length ids.now.methods < 65504 }
    ensures { result ≡ row_of set.now (numbers_of ids.now) class (number, selector.now) }
{
    match select(
        set,
        class,
        selector.name.as_slice(),
        selector.descriptor.as_slice(),
    ) {
        Some(member) => Some(DispatchRow {
            selector: number,
            method: ids.method_id(member),
        }),
        None => None,
    }
}

/// Adds a row, where there is one.
fn add_row(rows: &mut Vec<DispatchRow>, row: Option<DispatchRow>) -> Result<(), AllocError>
    ensures { OnOk result (rows.new.items ≡ rows.old.items ++ option_to_list row) }
{
    match row {
        Some(row) => {
            rows.push(row)?;
            Ok(())
        }
        None => Ok(()),
    }
}

/// The rows of a class that has objects, by rising selector.
fn rows_of(
    alloc: Global,
    set: &ClassSet,
    ids: &Ids,
    class: u16,
    flags: u16,
) -> Result<Vec<DispatchRow>, AllocError>
    requires class { IsClass set.now class }
    requires methods { length ids.now.methods < 65504 }
    requires selectors { length ids.now.selectors < 65536 }
    ensures { IfOk result (λ rows. rows.items ≡ rows_of_class set.now (numbers_of ids.now) class flags) }
{
    let mut rows = Vec::new(alloc);
    if entry_flags(flags) != 0 {
        return Ok(rows);
    }
    let selectors = ids.selectors.as_slice();
    for number in 0..selectors.len() {
        let row = row_for(set, ids, class, number as u16, &selectors[number]);
        match add_row(&mut rows, row) {
            Ok(()) => {}
            Err(why) => return Err(why),
        }
    }
    Ok(rows)
}

/// The name of a file's class.
fn own_name(alloc: Global, file: &ClassFile) -> Result<Vec<u8>, AllocError>
    ensures { IfOk result (λ name. name.items ≡ own_name_of file.now) }
{
    match file.pool.class_name(file.this_class) {
        Some(name) => Vec::from_slice(alloc, name),
        None => Ok(Vec::new(alloc)),
    }
}

/// The entry of a class of a file, whose objects are so large.
pub(crate) fn class_entry(
    alloc: Global,
    set: &ClassSet,
    ids: &Ids,
    class: u16,
    file: &ClassFile,
    layout: Layout,
) -> Result<ClassEntry, AllocError>
    requires class { IsClass set.now class }
    requires types { length ids.now.types < 65504 }
    requires methods { length ids.now.methods < 65504 }
    requires selectors { length ids.now.selectors < 65536 }
    requires layout { layout ≡ layout_of set.now class }
    ensures { IfOk result (λ entry. entry ≡ class_entry_of set.now (numbers_of ids.now) class file.now) }
{
    let uppers = superinterfaces_of(alloc, set, class)?;
    let interfaces = class_ids(alloc, ids, uppers.as_slice())?;
    let rows = rows_of(alloc, set, ids, class, file.flags)?;
    let name = own_name(alloc, file)?;
    Ok(ClassEntry {
        parent: parent_of(set, ids, class),
        flags: entry_flags(file.flags),
        refs: layout.refs,
        nums: layout.nums,
        interfaces: Items::from_vec(interfaces),
        rows: Items::from_vec(rows),
        name: Items::from_vec(name),
    })
}
