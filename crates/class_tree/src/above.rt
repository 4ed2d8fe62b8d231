//! Which classes are above which: a table with a row for each number.

ghost use Rattle.std.specs.Prelude.{◌≡◌, ℕ, ◌<◌, ◌+◌, ◌≤◌, ◌||◌, false, map, length, get_or, IfOk, IfSome};
ghost use Rattle.std.specs.List.{list_any};
ghost use Rattle.class_tree.specs.Set.{is_number, named_among, library_superclass, names_super, is_directly_below};
ghost use Rattle.class_tree.specs.Closure.{IsRowOf, IsSquare, AreOver, IsClosure};

use crate::closure::close;
use crate::names::Names;
use crate::supers::named;
use class_file::ClassFile;
use library::{FIRST_OWN, superclass_of};
use std::alloc::{AllocError, Global};

/// A row without flags for so many numbers.
fn empty_row(alloc: Global, count: usize) -> Result<Vec<bool>, AllocError>
    ensures long { IfOk result (λ row. length row.items ≡ count) }
    ensures clear { IfOk result (λ row. (to : ℕ) → get_or row.items to false ≡ false) }
{
    Vec::from_elem(alloc, false, count)
}

/// Sets the flag of a number, where there is one.
fn mark(row: &mut Vec<bool>, number: Option<u16>)
    requires { IfSome number (λ n. n < length row.old.items) }
    ensures long { length row.new.items ≡ length row.old.items }
    ensures says { (to : ℕ) → get_or row.new.items to false ≡ (get_or row.old.items to false || is_number to number) }
{
    if let Some(number) = number {
        row[usize::from(number)] = true;
    }
}

/// The row of a class of the library.
fn library_row(alloc: Global, count: usize, class: u16) -> Result<Vec<bool>, AllocError>
    requires { 32 ≤ count }
    ensures long { IfOk result (λ row. length row.items ≡ count) }
    ensures says { IfOk result (λ row. (to : ℕ) → get_or row.items to false ≡ is_number to (library_superclass class)) }
{
    let mut row = empty_row(alloc, count)?;
    mark(&mut row, superclass_of(class));
    Ok(row)
}

/// Sets the flags of the classes that these entries of the file name.
fn mark_named(names: &Names, file: &ClassFile, indexes: &[u16], row: &mut Vec<bool>)
    requires names { length names.now ≤ 512 }
    requires long { length row.old.items ≡ 32 + length names.now }
    ensures long { length row.new.items ≡ length row.old.items }
    ensures says { (to : ℕ) → get_or row.new.items to false ≡ (get_or row.old.items to false || list_any (λ index. is_number to (named_among names.now file.now index)) indexes.now) }
{
    for index in indexes {
        mark(row, named(names, file, *index));
    }
}

/// The row of a class that has a file.
fn file_row(alloc: Global, names: &Names, file: &ClassFile) -> Result<Vec<bool>, AllocError>
    requires { length names.now ≤ 512 }
    ensures long { IfOk result (λ row. length row.items ≡ 32 + length names.now) }
    ensures says { IfOk result (λ row. (to : ℕ) → get_or row.items to false ≡ names_super names.now to file.now) }
{
    let mut row = empty_row(alloc, usize::from(FIRST_OWN) + names.count())?;
    mark(&mut row, named(names, file, file.super_class));
    mark_named(names, file, file.interfaces.as_slice(), &mut row);
    Ok(row)
}

/// The row of a class: which classes stand directly above it.
fn row_of(
    alloc: Global,
    names: &Names,
    files: &[ClassFile],
    class: usize,
) -> Result<Vec<bool>, AllocError>
    requires names { length names.now ≤ 512 }
    requires class { class < 32 + length files.now }
    requires files { length files.now ≡ length names.now }
    ensures { IfOk result (λ row. IsRowOf (is_directly_below names.now files.now) (32 + length names.now) class row.items) }
{
    if class < usize::from(FIRST_OWN) {
        let row = library_row(alloc, usize::from(FIRST_OWN) + names.count(), class as u16)?;
        Ok(row)
    } else {
        let row = file_row(alloc, names, &files[class - usize::from(FIRST_OWN)])?;
        Ok(row)
    }
}

/// The table of the classes: which classes stand directly above which.
fn table_of(alloc: Global, names: &Names, files: &[ClassFile]) -> Result<Vec<Vec<bool>>, AllocError>
    requires names { length names.now ≤ 512 }
    requires files { length files.now ≡ length names.now }
    ensures { IfOk result (λ rows. AreOver (is_directly_below names.now files.now) (32 + length names.now) 0 (map (λ v. v.items) rows.items)) }
{
    let mut rows = Vec::new(alloc);
    for class in 0..usize::from(FIRST_OWN) + files.len() {
        let row = row_of(alloc, names, files, class)?;
        rows.push(row)?;
    }
    Ok(rows)
}

/// The table of the classes: which classes are above which, directly or over others.
pub(crate) fn above_of(
    alloc: Global,
    names: &Names,
    files: &[ClassFile],
) -> Result<Vec<Vec<bool>>, AllocError>
    requires names { length names.now ≤ 512 }
    requires files { length files.now ≡ length names.now }
    ensures { IfOk result (λ rows. IsClosure (is_directly_below names.now files.now) (32 + length names.now) (map (λ v. v.items) rows.items)) }
{
    let mut rows = table_of(alloc, names, files)?;
    close(alloc, &mut rows)?;
    Ok(rows)
}
