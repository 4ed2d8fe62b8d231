//! How many dimensions each type of an image has, found once.

ghost use Rattle.std.specs.Prelude.{◌≡◌, ◌+◌, min, [], IfOk, IfErr};
ghost use Rattle.image_form.specs.Grammar.{EachAfter, IsType};
ghost use Rattle.image_check.specs.declared.refusal.CheckCause.TheVariants.{Memory};
ghost use Rattle.image_check.specs.Dimensions.{dimensions_in as dimensions_by, dimensions_after as dimensions_by_entry, AreDimensions};

use crate::refusal::Fault;
use image_form::TypeEntry;
use library::FIRST_OWN;
use std::alloc::Global;

/// How many dimensions the type of the id has, by the table of those of an image's types: 0 where it
/// is no array type, and 255 where there are more.
pub(crate) fn dimensions_in(table: &[u8], id: u16) -> u8
    ensures { result ≡ dimensions_by table.now id }
{
    if id < FIRST_OWN {
        return 0;
    }
    match table.get(usize::from(id - FIRST_OWN)) {
        Some(dimensions) => *dimensions,
        None => 0,
    }
}

/// One more dimension, up to 255.
fn one_more(dimensions: u8) -> u8
    ensures { result ≡ min (dimensions + 1) 255 }
{
    if dimensions == 255 {
        return 255;
    }
    dimensions + 1
}

/// How many dimensions the type after those of the table has.
fn dimensions_after(table: &[u8], entry: &TypeEntry) -> u8
    ensures { result ≡ dimensions_by_entry table.now entry.now }
{
    match entry {
        TypeEntry::Class(_) => 0,
        TypeEntry::RefArray { of } => one_more(dimensions_in(table, *of)),
        TypeEntry::NumArray { .. } => 1,
    }
}

/// The dimensions of the types of an image, each of which is after the types that it names.
pub(crate) fn list_dimensions(alloc: Global, types: &[TypeEntry]) -> Result<Vec<u8>, Fault>
    requires { EachAfter IsType [] types.now }
    ensures items { IfOk result (λ table. AreDimensions types.now table.items) }
    ensures memory { IfErr result (λ fault. fault.cause ≡ Memory) }
{
    let mut table = Vec::with_capacity(alloc, types.len())?;
    for entry in types {
        let dimensions = dimensions_after(table.as_slice(), entry);
        table.push(dimensions)?;
    }
    Ok(table)
}
