//! The classes of the files in the order of their ids.

ghost use Rattle.std.specs.Prelude.{◌≡◌, ◌≤◌, [], ◌∷◌, ◌++◌, ◌||◌, nat_lt, map, option_copied, OnOk, IfOk, IfErr};
ghost use Rattle.std.specs.List.{AllByRecursion, filter_map};
ghost use Rattle.std.specs.Option.{option_to_list};
ghost use Rattle.library.specs.Classes.{first_own};
ghost use Rattle.class_tree.specs.DirectSupers.{superclass_of as superclass_of_class, superinterfaces_of as superinterfaces_of_class};
ghost use Rattle.class_tree.specs.Set.{own_name, file_of as file_of_class, named_among};
ghost use Rattle.jvm_model.specs.ImageNumbering.{is_among, number_class as number_class_of, class_order as class_order_of};
ghost use Rattle.infuse_ids.specs.declared.refusal.IdsRefusal.TheVariants.{Memory};

use crate::refusal::IdsRefusal;
use class_file::ClassFile;
use class_tree::ClassSet;
use indexmap::IndexSet;
use library::FIRST_OWN;
use std::alloc::{AllocError, Global};

/// The file of a class, where it has one.
pub fn file_of(set: &ClassSet, class: u16) -> Option<&ClassFile>
    ensures { option_copied result ≡ file_of_class set.now class }
{
    if class < FIRST_OWN || set.file_count() <= class - FIRST_OWN {
        return None;
    }
    Some(set.file(class))
}

/// The class that an entry of a file's pool names, where the set has it.
fn named(set: &ClassSet, file: &ClassFile, index: u16) -> Option<u16>
    ensures { result ≡ named_among (map own_name set.now) file.now index }
{
    set.number_of(file.pool.class_name(index)?)
}

/// Adds a class, where it is there.
fn add_upper(uppers: &mut Vec<u16>, upper: Option<u16>) -> Result<(), AllocError>
    ensures { OnOk result (uppers.new.items ≡ uppers.old.items ++ option_to_list upper) }
{
    match upper {
        Some(upper) => {
            uppers.push(upper)?;
            Ok(())
        }
        None => Ok(()),
    }
}

/// Adds the classes that these entries of a file's pool name.
fn add_named(
    set: &ClassSet,
    file: &ClassFile,
    indexes: &[u16],
    uppers: &mut Vec<u16>,
) -> Result<(), AllocError>
    ensures { OnOk result (uppers.new.items ≡ uppers.old.items ++ filter_map (named_among (map own_name set.now) file.now) indexes.now) }
{
    for index in indexes {
        match add_upper(uppers, named(set, file, *index)) {
            Ok(()) => {}
            Err(why) => return Err(why),
        }
    }
    Ok(())
}

/// The superinterfaces of a class in their order (JVMS 4.1); a class of the library has none.
pub fn superinterfaces_of(alloc: Global, set: &ClassSet, class: u16) -> Result<Vec<u16>, AllocError>
    ensures { IfOk result (λ uppers. uppers.items ≡ superinterfaces_of_class set.now class) }
{
    let mut uppers = Vec::new(alloc);
    match file_of(set, class) {
        Some(file) => {
            add_named(set, file, file.interfaces.as_slice(), &mut uppers)?;
            Ok(uppers)
        }
        None => Ok(uppers),
    }
}

/// The superclass of a class, where it has one, and then its superinterfaces.
fn uppers_of(alloc: Global, set: &ClassSet, class: u16) -> Result<Vec<u16>, AllocError>
    ensures { IfOk result (λ uppers. uppers.items ≡ option_to_list (superclass_of_class set.now class) ++ superinterfaces_of_class set.now class) }
{
    let mut uppers = Vec::new(alloc);
    add_upper(&mut uppers, set.superclass_of(class))?;
    match file_of(set, class) {
        Some(file) => {
            add_named(set, file, file.interfaces.as_slice(), &mut uppers)?;
            Ok(uppers)
        }
        None => Ok(uppers),
    }
}

/// Adds a class that is not there. A class that is above itself, which no closed set has, is answered as want of memory.
fn add_class(order: &mut IndexSet<u16>, class: u16) -> Result<(), IdsRefusal>
    ensures added { OnOk result (order.new.keys ≡ order.old.keys ++ class ∷ []) }
    ensures memory { IfErr result (λ why. why ≡ Memory) }
{
    if !order.insert(class)? {
        return Err(IdsRefusal::Memory);
    }
    Ok(())
}

/// The class has a number, or is one of the library.
fn is_passed(order: &IndexSet<u16>, class: u16) -> bool
    ensures { result ≡ (nat_lt class first_own || is_among class order.now.keys) }
{
    class < FIRST_OWN || order.contains(&class)
}

/// Numbers a class behind what stands above it, so many levels up, where it has no number yet.
fn number_class(
    alloc: Global,
    set: &ClassSet,
    levels: u16,
    order: &mut IndexSet<u16>,
    class: u16,
) -> Result<(), IdsRefusal>
    ensures numbered { OnOk result (order.new.keys ≡ number_class_of set.now levels order.old.keys class) }
    ensures memory { IfErr result (λ why. why ≡ Memory) }
{
    if levels == 0 {
        return Ok(());
    }
    if is_passed(order, class) {
        return Ok(());
    }
    let uppers = uppers_of(alloc, set, class)?;
    for upper in uppers.as_slice() {
        match number_class(alloc, set, levels - 1, order, *upper) {
            Ok(()) => {}
            Err(why) => return Err(why),
        }
    }
    match add_class(order, class) {
        Ok(()) => Ok(()),
        Err(why) => Err(why),
    }
}

/// The classes of the files, each behind what stands above it.
pub fn class_order(alloc: Global, set: &ClassSet) -> Result<IndexSet<u16>, IdsRefusal>
    ensures order { IfOk result (λ order. order.keys ≡ class_order_of set.now) }
    ensures own { IfOk result (λ order. AllByRecursion (λ class. 32 ≤ class) order.keys) }
    ensures memory { IfErr result (λ why. why ≡ Memory) }
{
    let mut order = IndexSet::new(alloc);
    let levels = FIRST_OWN + set.file_count();
    for position in 0..set.file_count() {
        match number_class(alloc, set, levels, &mut order, FIRST_OWN + position) {
            Ok(()) => {}
            Err(why) => return Err(why),
        }
    }
    Ok(order)
}
