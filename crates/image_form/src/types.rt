//! The table of types: classes and interfaces, each after its superclass and its superinterfaces, and
//! arrays, each after its elements.

ghost use Rattle.std.specs.Prelude.{◌≡◌, ◌+◌, ◌-◌, ◌^◌, ◌<◌, ◌≤◌, ◌&&◌, not, nat_le, List, [], ◌∷◌, ◌++◌, length, slice_get, IfOk, IfErr};
ghost use Rattle.std.specs.List.{list_any};
ghost use Rattle.std.specs.BTreeSet.{contains};
ghost use Rattle.std.specs.Ordering.{nat_cmp};
ghost use Rattle.image_form.specs.declared.record.TypeEntry.{TypeEntry as EarlierType};
ghost use Rattle.image_form.specs.declared.refusal.FormRefusal.TheVariants.{Memory};
ghost use Rattle.image_form.specs.Arrays.{AreArrays};
ghost use Rattle.image_form.specs.Refused.{Shows};
ghost use Rattle.image_form.specs.Library.{names_parent, names_interface};
ghost use Rattle.image_form.specs.Grammar.{is_above, is_ref_array, is_num_array, is_kind, most_types};
ghost use Rattle.image_form.specs.Reading.{u1_at, u2_at, tested, items_at, in_types, interface_at, interfaces_at, row_at, rows_at, refs_at, nums_at, class_at, element_at, kind_at, tagged_at, type_at, types_at};

use crate::ids::{names_interface, names_parent, names_type, nums_of, refs_of};
use crate::part::{name_at, u1_at, u2_at};
use crate::record::{ClassEntry, DispatchRow, TypeEntry};
use crate::refusal::FormRefusal;
use item_list::Items;
use std::alloc::Global;
use std::collections::BTreeSet;

/// The types whose arrays are among the types that were read, by their ids.
type Arrays = BTreeSet<u16>;

/// With the 32 ids of the library there are 4,096.
const MOST_TYPES: u16 = 4064;

/// The most cells that an object may have, its two header cells among them.
const MOST_CELLS: u32 = 32_767;

/// The refusal of the entry at an index.
fn bad_type(index: u16) -> FormRefusal
    ensures { result ≡ in_types index }
{
    FormRefusal::BadTable { table: 0, index }
}

/// The refusal of the entry after these types.
fn bad_next(types: &[TypeEntry]) -> FormRefusal
    requires { length types.now < 2 ^ 16 }
    ensures { result ≡ in_types (length types.now) }
{
    bad_type(types.len() as u16)
}

/// A direct superinterface.
#[tactic(auto, unfolding(crate::specs::Reading::interface_at))]
fn interface_at<'a>(types: &[TypeEntry], bytes: &'a [u8]) -> Result<(u16, &'a [u8]), FormRefusal>
    requires { length types.now < 2 ^ 16 }
    ensures { Shows (λ x. (x.0, x.1.now)) result (tested (names_interface types.now) (in_types (length types.now)) (u2_at bytes.now)) }
{
    let (id, rest) = u2_at(bytes)?;
    if !names_interface(types, id) {
        return Err(bad_next(types));
    }
    Ok((id, rest))
}

/// So many direct superinterfaces.
fn listed_interfaces<'a>(
    alloc: Global,
    types: &[TypeEntry],
    count: u16,
    bytes: &'a [u8],
) -> Result<(Vec<u16>, &'a [u8]), FormRefusal>
    requires { length types.now < 2 ^ 16 }
    ensures { Shows (λ x. (x.0.items, x.1.now)) result (items_at (interface_at types.now) count [] bytes.now) }
{
    let mut interfaces = Vec::new(alloc);
    let mut rest = bytes;
    for _ in 0..count {
        let (interface, after) = interface_at(types, rest)?;
        interfaces.push(interface)?;
        rest = after;
    }
    Ok((interfaces, rest))
}

/// The direct superinterfaces after their count.
#[tactic(auto, unfolding(crate::specs::Reading::interfaces_at))]
fn interfaces_at<'a>(
    alloc: Global,
    types: &[TypeEntry],
    bytes: &'a [u8],
) -> Result<(Items<u16>, &'a [u8]), FormRefusal>
    requires { length types.now < 2 ^ 16 }
    ensures { Shows (λ x. (x.0, x.1.now)) result (interfaces_at types.now bytes.now) }
{
    let (count, rest) = u2_at(bytes)?;
    let (interfaces, rest) = listed_interfaces(alloc, types, count, rest)?;
    Ok((Items::from_vec(interfaces), rest))
}

/// The selector is above that of the last row, where there is one.
fn is_above(before: &[DispatchRow], selector: u16) -> bool
    ensures { result ≡ is_above (slice_get before.now (length before.now - 1)) selector }
{
    match before.last() {
        Some(row) => row.selector < selector,
        None => true,
    }
}

/// A dispatch row of the class at an index, after the rows before it.
#[tactic(auto, unfolding(crate::specs::Reading::row_at))]
fn row_at<'a>(
    index: u16,
    before: &[DispatchRow],
    bytes: &'a [u8],
) -> Result<(DispatchRow, &'a [u8]), FormRefusal>
    ensures { Shows (λ x. (x.0, x.1.now)) result (row_at index before.now bytes.now) }
{
    let (selector, rest) = u2_at(bytes)?;
    if !is_above(before, selector) {
        return Err(bad_type(index));
    }
    let (method, rest) = u2_at(rest)?;
    Ok((DispatchRow { selector, method }, rest))
}

/// So many dispatch rows of the class at an index.
fn listed_rows(
    alloc: Global,
    index: u16,
    count: u16,
    bytes: &[u8],
) -> Result<(Vec<DispatchRow>, &[u8]), FormRefusal>
    ensures { Shows (λ x. (x.0.items, x.1.now)) result (items_at (row_at index) count [] bytes.now) }
{
    let mut rows = Vec::new(alloc);
    let mut rest = bytes;
    for _ in 0..count {
        let (row, after) = row_at(index, rows.as_slice(), rest)?;
        rows.push(row)?;
        rest = after;
    }
    Ok((rows, rest))
}

/// The dispatch rows after their count, for a class with these flags at an index.
#[tactic(auto, unfolding(crate::specs::Reading::rows_at))]
fn rows_at(
    alloc: Global,
    index: u16,
    flags: u8,
    bytes: &[u8],
) -> Result<(Items<DispatchRow>, &[u8]), FormRefusal>
    ensures { Shows (λ x. (x.0, x.1.now)) result (rows_at index flags bytes.now) }
{
    let (count, rest) = u2_at(bytes)?;
    if flags != 0 && count != 0 {
        return Err(bad_type(index));
    }
    let (rows, rest) = listed_rows(alloc, index, count, rest)?;
    Ok((Items::from_vec(rows), rest))
}

/// The superclass, which is no interface.
fn parent_at<'a>(types: &[TypeEntry], bytes: &'a [u8]) -> Result<(u16, &'a [u8]), FormRefusal>
    requires { length types.now < 2 ^ 16 }
    ensures { Shows (λ x. (x.0, x.1.now)) result (tested (names_parent types.now) (in_types (length types.now)) (u2_at bytes.now)) }
{
    let (parent, rest) = u2_at(bytes)?;
    if !names_parent(types, parent) {
        return Err(bad_next(types));
    }
    Ok((parent, rest))
}

/// The flags of a class: 1 for an interface, 2 for an abstract class, or both.
fn flags_at<'a>(types: &[TypeEntry], bytes: &'a [u8]) -> Result<(u8, &'a [u8]), FormRefusal>
    requires { length types.now < 2 ^ 16 }
    ensures { Shows (λ x. (x.0, x.1.now)) result (tested (λ flags. nat_le flags 3) (in_types (length types.now)) (u1_at bytes.now)) }
{
    let (flags, rest) = u1_at(bytes)?;
    if flags > 3 {
        return Err(bad_next(types));
    }
    Ok((flags, rest))
}

/// The reference fields, those of the superclass among them.
fn refs_at<'a>(
    types: &[TypeEntry],
    parent: u16,
    bytes: &'a [u8],
) -> Result<(u16, &'a [u8]), FormRefusal>
    requires { length types.now < 2 ^ 16 }
    ensures { Shows (λ x. (x.0, x.1.now)) result (refs_at types.now parent bytes.now) }
{
    let (refs, rest) = u2_at(bytes)?;
    if refs < refs_of(types, parent) {
        return Err(bad_next(types));
    }
    Ok((refs, rest))
}

/// An object with these fields has few enough cells.
fn object_fits(refs: u16, nums: u16) -> bool
    ensures { result ≡ nat_le (2 + (refs + nums)) 32767 }
{
    2 + (u32::from(refs) + u32::from(nums)) <= MOST_CELLS
}

/// The cells of the other fields, those of the superclass among them.
fn nums_at<'a>(
    types: &[TypeEntry],
    parent: u16,
    refs: u16,
    bytes: &'a [u8],
) -> Result<(u16, &'a [u8]), FormRefusal>
    requires { length types.now < 2 ^ 16 }
    ensures { Shows (λ x. (x.0, x.1.now)) result (nums_at types.now parent refs bytes.now) }
{
    let (nums, rest) = u2_at(bytes)?;
    if nums < nums_of(types, parent) || !object_fits(refs, nums) {
        return Err(bad_next(types));
    }
    Ok((nums, rest))
}

/// The class after these types, without its tag.
#[tactic(auto, unfolding(crate::specs::Reading::class_at))]
fn class_at<'a>(
    alloc: Global,
    types: &[TypeEntry],
    bytes: &'a [u8],
) -> Result<(ClassEntry, &'a [u8]), FormRefusal>
    requires { length types.now < 2 ^ 16 }
    ensures { Shows (λ x. (x.0, x.1.now)) result (class_at types.now bytes.now) }
{
    let (parent, rest) = parent_at(types, bytes)?;
    let (flags, rest) = flags_at(types, rest)?;
    let (refs, rest) = refs_at(types, parent, rest)?;
    let (nums, rest) = nums_at(types, parent, refs, rest)?;
    let (interfaces, rest) = interfaces_at(alloc, types, rest)?;
    let (rows, rest) = rows_at(alloc, types.len() as u16, flags, rest)?;
    let (name, rest) = name_at(alloc, rest)?;
    let class = ClassEntry {
        parent,
        flags,
        refs,
        nums,
        interfaces,
        rows,
        name,
    };
    Ok((class, rest))
}

/// One of the types is the array of elements of this type.
fn has_ref_array(arrays: &Arrays, element: u16) -> bool
    ensures { result ≡ contains nat_cmp arrays.now element }
{
    arrays.contains(&element)
}

/// Notes a type that was read.
fn note(arrays: &mut Arrays, entry: &TypeEntry) -> Result<(), FormRefusal>
    ensures arrays { (types : List EarlierType) → AreArrays types arrays.old → IfOk result (λ done. AreArrays (types ++ entry.now ∷ []) arrays.new) }
    ensures memory { IfErr result (λ why. why ≡ Memory) }
{
    if let TypeEntry::RefArray { of } = entry {
        arrays.insert(*of)?;
    }
    Ok(())
}

/// One of the types is the array of whole numbers of this kind.
fn has_num_array(types: &[TypeEntry], kind: u8) -> bool
    ensures { result ≡ list_any (is_num_array kind) types.now }
{
    types.iter().any(|entry| matches!(entry, TypeEntry::NumArray { kind: other } if *other == kind))
}

/// The element type of an array that is not among these types.
#[tactic(auto, unfolding(crate::specs::Reading::element_at))]
fn element_at<'a>(
    types: &[TypeEntry],
    arrays: &Arrays,
    bytes: &'a [u8],
) -> Result<(u16, &'a [u8]), FormRefusal>
    requires few { length types.now < 2 ^ 16 }
    requires arrays { AreArrays types.now arrays.now }
    ensures { Shows (λ x. (x.0, x.1.now)) result (element_at types.now bytes.now) }
{
    let (element, rest) = u2_at(bytes)?;
    if !names_type(types, element) || has_ref_array(arrays, element) {
        return Err(bad_next(types));
    }
    Ok((element, rest))
}

/// The kind is one of whole numbers of one or two cells (JVMS table 6.5.newarray-A).
fn is_kind(kind: u8) -> bool
    ensures { result ≡ is_kind kind }
{
    matches!(kind, 4 | 5 | 8 | 9 | 10)
}

/// The kind of an array of whole numbers that is not among these types.
#[tactic(auto, unfolding(crate::specs::Reading::kind_at))]
fn kind_at<'a>(types: &[TypeEntry], bytes: &'a [u8]) -> Result<(u8, &'a [u8]), FormRefusal>
    requires { length types.now < 2 ^ 16 }
    ensures { Shows (λ x. (x.0, x.1.now)) result (kind_at types.now bytes.now) }
{
    let (kind, rest) = u1_at(bytes)?;
    if !is_kind(kind) || has_num_array(types, kind) {
        return Err(bad_next(types));
    }
    Ok((kind, rest))
}

/// The type with this tag after these types.
#[tactic(auto, unfolding(crate::specs::Reading::tagged_at))]
fn tagged_at<'a>(
    alloc: Global,
    types: &[TypeEntry],
    arrays: &Arrays,
    tag: u8,
    bytes: &'a [u8],
) -> Result<(TypeEntry, &'a [u8]), FormRefusal>
    requires few { length types.now < 2 ^ 16 }
    requires arrays { AreArrays types.now arrays.now }
    ensures { Shows (λ x. (x.0, x.1.now)) result (tagged_at types.now tag bytes.now) }
{
    match tag {
        0 => {
            let (class, rest) = class_at(alloc, types, bytes)?;
            Ok((TypeEntry::Class(class), rest))
        }
        1 => {
            let (of, rest) = element_at(types, arrays, bytes)?;
            Ok((TypeEntry::RefArray { of }, rest))
        }
        2 => {
            let (kind, rest) = kind_at(types, bytes)?;
            Ok((TypeEntry::NumArray { kind }, rest))
        }
        _ => Err(bad_next(types)),
    }
}

/// The type after these types.
#[tactic(auto, unfolding(crate::specs::Reading::type_at))]
fn type_at<'a>(
    alloc: Global,
    types: &[TypeEntry],
    arrays: &Arrays,
    bytes: &'a [u8],
) -> Result<(TypeEntry, &'a [u8]), FormRefusal>
    requires few { length types.now < 2 ^ 16 }
    requires arrays { AreArrays types.now arrays.now }
    ensures { Shows (λ x. (x.0, x.1.now)) result (type_at types.now bytes.now) }
{
    let (tag, rest) = u1_at(bytes)?;
    tagged_at(alloc, types, arrays, tag, rest)
}

/// So many types.
fn listed_types(
    alloc: Global,
    count: u16,
    bytes: &[u8],
) -> Result<(Vec<TypeEntry>, &[u8]), FormRefusal>
    ensures value { Shows (λ x. (x.0.items, x.1.now)) result (items_at type_at count [] bytes.now) }
    ensures count { IfOk result (λ x. length x.0.items ≤ count) }
{
    let mut types = Vec::new(alloc);
    let mut arrays = BTreeSet::new(alloc);
    let mut rest = bytes;
    for _ in 0..count {
        let (entry, after) = type_at(alloc, types.as_slice(), &arrays, rest)?;
        note(&mut arrays, &entry)?;
        types.push(entry)?;
        rest = after;
    }
    Ok((types, rest))
}

/// The types after their count.
#[tactic(auto, unfolding(crate::specs::Reading::types_at))]
pub(crate) fn types_at(
    alloc: Global,
    bytes: &[u8],
) -> Result<(Items<TypeEntry>, &[u8]), FormRefusal>
    ensures value { Shows (λ x. (x.0, x.1.now)) result (types_at bytes.now) }
    ensures count { IfOk result (λ x. length x.0 ≤ most_types) }
{
    let (count, rest) = u2_at(bytes)?;
    if count > MOST_TYPES {
        return Err(bad_type(0));
    }
    let (types, rest) = listed_types(alloc, count, rest)?;
    Ok((Items::from_vec(types), rest))
}
