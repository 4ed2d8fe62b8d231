//! The static fields of a set: how many are references, and the cells of the others before main starts.

ghost use Rattle.std.specs.Prelude.{◌≡◌, ◌+◌, ◌++◌, ◌&&◌, if◌then◌else◌, filter, length, OnOk, IfOk, IfErr};
ghost use Rattle.std.specs.List.{flat_map, sum_by};
ghost use Rattle.class_file.specs.Rules.{is_static as is_static_field};
ghost use Rattle.jvm_model.specs.ImageNumbering.{class_fields, class_order, initial_cells, is_number_field, is_reference_field, static_fields};
ghost use Rattle.jvm_model.specs.Initialisers.{is_reference_kind};
ghost use Rattle.jvm_model.specs.InitialStatics.{kind_of as kind_of_field};
ghost use Rattle.infuse_ids.specs.Statics.{AreWritesOf, reference_of, cells_of, references_among, cells_among};
ghost use Rattle.infuse_ids.specs.declared.refusal.IdsRefusal.TheVariants.{Memory};

use crate::classes::file_of;
use crate::kinds::{is_reference, is_whole, kind_of};
use crate::refusal::IdsRefusal;
use crate::values::add_static;
use crate::writes::{LastWrites, last_writes};
use class_file::{ClassFile, Member, is_static};
use class_pool::Kind;
use class_tree::ClassSet;
use std::alloc::Global;

/// How many static fields are references, and the cells of those that are whole numbers.
#[derive(Debug, Drop)]
pub(crate) struct Statics {
    pub(crate) refs: u32,
    pub(crate) cells: Vec<u16>,
}

/// A count with one more; a count that four bytes do not hold is answered as want of memory.
fn one_more(count: u32) -> Result<u32, IdsRefusal>
    ensures sum { IfOk result (λ sum. sum ≡ count + 1) }
    ensures memory { IfErr result (λ why. why ≡ Memory) }
{
    match count.checked_add(1) {
        Some(sum) => Ok(sum),
        None => Err(IdsRefusal::Memory),
    }
}

/// Counts a field, where it is a static reference.
fn count(field: &Member, kind: &Kind, refs: u32) -> Result<u32, IdsRefusal>
    ensures counted { IfOk result (λ sum. sum ≡ refs + (if is_static_field field.now.flags && is_reference_kind kind.now then 1 else 0)) }
    ensures memory { IfErr result (λ why. why ≡ Memory) }
{
    if is_static(field.flags) && is_reference(kind) {
        one_more(refs)
    } else {
        Ok(refs)
    }
}

/// Adds the cells of a field, where it is a static whole number.
fn add_cells(
    alloc: Global,
    file: &ClassFile,
    kind: &Kind,
    field: &Member,
    writes: &LastWrites,
    cells: &mut Vec<u16>,
) -> Result<(), IdsRefusal>
    requires kind { kind.now ≡ kind_of_field file.now.pool field.now }
    requires writes { AreWritesOf file.now writes.now }
    ensures added { OnOk result (cells.new.items ≡ cells.old.items ++ cells_of file.now field.now) }
    ensures memory { IfErr result (λ why. why ≡ Memory) }
{
    if is_static(field.flags) && is_whole(kind) {
        match add_static(alloc, &file.pool, kind, field, writes, cells) {
            Ok(()) => Ok(()),
            Err(_) => Err(IdsRefusal::Memory),
        }
    } else {
        Ok(())
    }
}

/// Adds a field, where it is static.
fn add_field(
    alloc: Global,
    file: &ClassFile,
    field: &Member,
    writes: &LastWrites,
    statics: &mut Statics,
) -> Result<(), IdsRefusal>
    requires { AreWritesOf file.now writes.now }
    ensures refs { OnOk result (statics.new.refs ≡ statics.old.refs + reference_of file.now field.now) }
    ensures cells { OnOk result (statics.new.cells.items ≡ statics.old.cells.items ++ cells_of file.now field.now) }
    ensures memory { IfErr result (λ why. why ≡ Memory) }
{
    let kind = match kind_of(alloc, &file.pool, field) {
        Ok(kind) => kind,
        Err(why) => return Err(why),
    };
    match count(field, &kind, statics.refs) {
        Ok(refs) => statics.refs = refs,
        Err(why) => return Err(why),
    }
    match add_cells(alloc, file, &kind, field, writes, &mut statics.cells) {
        Ok(()) => Ok(()),
        Err(why) => Err(why),
    }
}

/// Adds the static fields among these.
fn add_fields(
    alloc: Global,
    file: &ClassFile,
    fields: &[Member],
    writes: &LastWrites,
    statics: &mut Statics,
) -> Result<(), IdsRefusal>
    requires { AreWritesOf file.now writes.now }
    ensures refs { OnOk result (statics.new.refs ≡ statics.old.refs + sum_by (reference_of file.now) fields.now) }
    ensures cells { OnOk result (statics.new.cells.items ≡ statics.old.cells.items ++ flat_map (cells_of file.now) fields.now) }
    ensures memory { IfErr result (λ why. why ≡ Memory) }
{
    for field in fields {
        match add_field(alloc, file, field, writes, statics) {
            Ok(()) => {}
            Err(why) => return Err(why),
        }
    }
    Ok(())
}

/// Adds the static fields of a class.
fn add_class(
    alloc: Global,
    set: &ClassSet,
    class: u16,
    statics: &mut Statics,
) -> Result<(), IdsRefusal>
    ensures refs { OnOk result (statics.new.refs ≡ statics.old.refs + references_among (class_fields set.now class)) }
    ensures cells { OnOk result (statics.new.cells.items ≡ statics.old.cells.items ++ cells_among set.now (class_fields set.now class)) }
    ensures memory { IfErr result (λ why. why ≡ Memory) }
{
    match file_of(set, class) {
        Some(file) => {
            let fields = file.fields.as_slice();
            match last_writes(alloc, &file.pool, file.methods.as_slice()) {
                Ok(writes) => match add_fields(alloc, file, fields, &writes, statics) {
                    Ok(()) => Ok(()),
                    Err(why) => Err(why),
                },
                Err(why) => Err(why),
            }
        }
        None => Ok(()),
    }
}

/// The static fields of a set, over its classes in the order of their ids. Each initialiser is read once.
pub(crate) fn initial_statics(
    alloc: Global,
    set: &ClassSet,
    order: &[u16],
) -> Result<Statics, IdsRefusal>
    requires { order.now ≡ class_order set.now }
    ensures refs { IfOk result (λ statics. statics.refs ≡ length (filter is_reference_field (static_fields set.now))) }
    ensures cells { IfOk result (λ statics. statics.cells.items ≡ flat_map (initial_cells set.now) (filter is_number_field (static_fields set.now))) }
    ensures memory { IfErr result (λ why. why ≡ Memory) }
{
    let mut statics = Statics {
        refs: 0,
        cells: Vec::new(alloc),
    };
    for class in order {
        match add_class(alloc, set, *class, &mut statics) {
            Ok(()) => {}
            Err(why) => return Err(why),
        }
    }
    Ok(statics)
}
