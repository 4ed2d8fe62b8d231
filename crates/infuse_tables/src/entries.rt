//! The entries of types.

ghost use Rattle.std.specs.Prelude.{◌≡◌, ◌≤◌, ◌<◌, ◌++◌, [], ◌∷◌, Some, slice_get, length, IfOk, OnOk};
ghost use Rattle.std.specs.List.{flat_map};
ghost use Rattle.class_tree.specs.Tree.{Gathers};
ghost use Rattle.jvm_model.specs.ImageNumbering.{layout_of};
ghost use Rattle.jvm_model.specs.ImageTables.{array_entry as array_entry_of, entry_of, kind_number as kind_number_of, own_entry};
ghost use Rattle.jvm_model.specs.NumberedIds.{numbers_of};
ghost use Rattle.infuse_tables.specs.Tables.{FitTables};

use crate::classes::class_entry;
use class_pool::{TypeBase, TypeRef};
use class_tree::ClassSet;
use image_form::TypeEntry;
use infuse_ids::file_of;
use jvm_model::Ids;
use std::alloc::{AllocError, Global};

/// The kind of an array of whole numbers (JVMS table 6.5.newarray-A).
fn kind_number(base: TypeBase) -> u8
    ensures { result ≡ kind_number_of base }
{
    match base {
        TypeBase::Boolean => 4,
        TypeBase::Char => 5,
        TypeBase::Byte => 8,
        TypeBase::Short => 9,
        TypeBase::Int | TypeBase::Class(_) => 10,
    }
}

/// The entry of an array type.
fn array_entry(ids: &Ids, of: TypeRef) -> TypeEntry
    requires some { 1 ≤ of.dims }
    requires types { length ids.now.types < 65504 }
    ensures { result ≡ array_entry_of (numbers_of ids.now) of.dims of.base }
{
    let element = TypeRef {
        dims: of.dims - 1,
        base: of.base,
    };
    match of.base {
        TypeBase::Class(_) => TypeEntry::RefArray {
            of: ids.type_id(element),
        },
        TypeBase::Byte | TypeBase::Char | TypeBase::Short | TypeBase::Int | TypeBase::Boolean => {
            if of.dims == 1 {
                TypeEntry::NumArray {
                    kind: kind_number(of.base),
                }
            } else {
                TypeEntry::RefArray {
                    of: ids.type_id(element),
                }
            }
        }
    }
}

/// Adds the entry of the class at a position among the types.
fn add_class(
    alloc: Global,
    set: &ClassSet,
    ids: &Ids,
    position: usize,
    base: TypeBase,
    entries: &mut Vec<TypeEntry>,
) -> Result<(), AllocError>
    requires fit { FitTables set.now (numbers_of ids.now) }
    requires at { slice_get ids.now.types position ≡ Some (record { dims = 0; base = base }) }
    ensures { OnOk result (entries.new.items ≡ entries.old.items ++ own_entry set.now (numbers_of ids.now) base) }
{
    let TypeBase::Class(class) = base else {
        return Ok(());
    };
    match file_of(set, class) {
        Some(file) => {
            let layout = ids.layouts.as_slice()[position];
            let entry = class_entry(alloc, set, ids, class, file, layout)?;
            entries.push(TypeEntry::Class(entry))?;
            Ok(())
        }
        None => Ok(()),
    }
}

/// Adds the entry of the type at a position among the types.
fn add_entry(
    alloc: Global,
    set: &ClassSet,
    ids: &Ids,
    position: usize,
    of: TypeRef,
    entries: &mut Vec<TypeEntry>,
) -> Result<(), AllocError>
    requires fit { FitTables set.now (numbers_of ids.now) }
    requires at { slice_get ids.now.types position ≡ Some of }
    ensures { OnOk result (entries.new.items ≡ entries.old.items ++ entry_of set.now (numbers_of ids.now) of) }
{
    if of.dims == 0 {
        return add_class(alloc, set, ids, position, of.base, entries);
    }
    entries.push(array_entry(ids, of))?;
    Ok(())
}

/// The entries of all types that are numbered, in the order of their ids. Costs a look-up for each class and selector.
pub fn type_entries(alloc: Global, set: &ClassSet, ids: &Ids) -> Result<Vec<TypeEntry>, AllocError>
    requires { FitTables set.now (numbers_of ids.now) }
    ensures { IfOk result (λ entries. entries.items ≡ flat_map (entry_of set.now (numbers_of ids.now)) ids.now.types) }
{
    let mut entries = Vec::new(alloc);
    let types = ids.types.as_slice();
    for position in 0..types.len() {
        match add_entry(alloc, set, ids, position, types[position], &mut entries) {
            Ok(()) => {}
            Err(why) => return Err(why),
        }
    }
    Ok(entries)
}
