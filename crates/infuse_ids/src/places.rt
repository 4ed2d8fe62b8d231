//! The places of fields: of a static one among all statics, and of another one in an object, behind the fields of the
//! superclass.

ghost use Rattle.std.specs.Prelude.{◌≡◌, ◌||◌, ◌++◌, [], ◌∷◌, List, Some, None, true, map, slice_index_or, OnOk, IfOk, IfErr};
ghost use Rattle.class_file.specs.declared.record.ClassFile.{ClassFile as Record};
ghost use Rattle.class_tree.specs.Members.{member_at};
ghost use Rattle.class_tree.specs.Set.{file_of as file_of_class};
ghost use Rattle.class_tree.specs.Tree.{Gathers};
ghost use Rattle.jvm_model.specs.Initialisers.{is_reference_kind, is_whole_kind};
ghost use Rattle.jvm_model.specs.ImageNumbering.{Field, all_fields, class_fields, class_order, layout_of};
ghost use Rattle.infuse_ids.specs.Places.{layout_in, place_behind, count_field, counts_for, field_at, placed, fields_above, AddsField, StandsAmong, ArePlaced};
ghost use Rattle.infuse_ids.specs.declared.refusal.IdsRefusal.TheVariants.{Memory};

use crate::classes::file_of;
use crate::counts::next_place;
use crate::kinds::kind_of;
use crate::refusal::IdsRefusal;
use class_file::{ClassFile, Member, is_static};
use class_pool::{Kind, MemberId, Pool};
use class_tree::ClassSet;
use indexmap::IndexSet;
use jvm_model::{Layout, PlaceList};
use library::FIRST_OWN;
use std::alloc::Global;

/// No fields.
const NO_FIELDS: Layout = Layout { refs: 0, nums: 0 };

/// The fields so far: all static ones, and those of an object of the class at hand.
#[derive(Clone, Copy, Debug, PartialEq, Eq)]
struct Counts {
    statics: Layout,
    object: Layout,
}

/// Counts a field of a type, and answers its place.
fn count(kind: &Kind, among_statics: bool, counts: &mut Counts) -> Result<u16, IdsRefusal>
    ensures known { OnOk result ((is_reference_kind kind.now || is_whole_kind kind.now) ≡ true) }
    ensures place { IfOk result (λ place. place ≡ place_behind kind.now (counts_for among_statics counts.old)) }
    ensures counted { OnOk result (counts.new ≡ count_field kind.now among_statics counts.old) }
    ensures memory { IfErr result (λ why. why ≡ Memory) }
{
    if among_statics {
        next_place(kind, &mut counts.statics)
    } else {
        next_place(kind, &mut counts.object)
    }
}

/// Lists a field that is not there. A field that is, which no set has, is answered as want of memory.
fn list(member: MemberId, place: u16, places: &mut PlaceList) -> Result<(), IdsRefusal>
    ensures listed { OnOk result (places.new ≡ places.old ++ record { member = member; place = place } ∷ []) }
    ensures memory { IfErr result (λ why. why ≡ Memory) }
{
    if places.push(member, place)? {
        Ok(())
    } else {
        Err(IdsRefusal::Memory)
    }
}

/// Counts a field, and lists it with its place.
fn add_field(
    alloc: Global,
    pool: &Pool,
    member: MemberId,
    field: &Member,
    counts: &mut Counts,
    places: &mut PlaceList,
) -> Result<(), IdsRefusal>
    ensures added { OnOk result (AddsField (field_at member pool.now field.now) counts.old counts.new places.old places.new) }
    ensures memory { IfErr result (λ why. why ≡ Memory) }
{
    let kind = match kind_of(alloc, pool, field) {
        Ok(kind) => kind,
        Err(why) => return Err(why),
    };
    match count(&kind, is_static(field.flags), counts) {
        Ok(place) => list(member, place, places),
        Err(why) => Err(why),
    }
}

/// The member of a class at a position. One that two bytes do not hold, which no set has, is answered as want of memory.
fn member_of(class: u16, position: usize) -> Result<MemberId, IdsRefusal>
    ensures member { IfOk result (λ member. member ≡ member_at class position) }
    ensures memory { IfErr result (λ why. why ≡ Memory) }
{
    if position > 65535 {
        return Err(IdsRefusal::Memory);
    }
    Ok(MemberId {
        class,
        member: position as u16,
    })
}

/// Counts the field at a position of a class, and lists it with its place.
fn add_field_at(
    alloc: Global,
    class: u16,
    pool: &Pool,
    position: usize,
    field: &Member,
    counts: &mut Counts,
    places: &mut PlaceList,
) -> Result<(), IdsRefusal>
    ensures added { OnOk result (AddsField (field_at (member_at class position) pool.now field.now) counts.old counts.new places.old places.new) }
    ensures memory { IfErr result (λ why. why ≡ Memory) }
{
    match member_of(class, position) {
        Ok(member) => add_field(alloc, pool, member, field, counts, places),
        Err(why) => Err(why),
    }
}

/// Counts the fields of a class, and lists them with their places. The count of the fields of its objects begins with
/// that of the superclass.
fn add_fields(
    alloc: Global,
    class: u16,
    file: &ClassFile,
    counts: &mut Counts,
    places: &mut PlaceList,
) -> Result<(), IdsRefusal>
    ensures placed { OnOk result ((files : List Record) (before after : List Field) → file_of_class files class ≡ Some file.now → StandsAmong files class before after → counts.old.object ≡ layout_in (fields_above files class) → ArePlaced files before counts.old.statics places.old → ArePlaced files (before ++ class_fields files class) counts.new.statics places.new) }
    ensures memory { IfErr result (λ why. why ≡ Memory) }
{
    let fields = file.fields.as_slice();
    for (position, field) in fields.iter().enumerate() {
        match add_field_at(alloc, class, &file.pool, position, field, counts, places) {
            Ok(()) => {}
            Err(why) => return Err(why),
        }
    }
    Ok(())
}

/// The layout at a position, where there is one.
fn nth(layouts: &[Layout], position: usize) -> Result<Layout, IdsRefusal>
    ensures layout { IfOk result (λ layout. layout ≡ slice_index_or layouts.now position layout) }
    ensures memory { IfErr result (λ why. why ≡ Memory) }
{
    match layouts.get(position) {
        Some(layout) => Ok(*layout),
        None => Err(IdsRefusal::Memory),
    }
}

/// The fields of an object of a class: those of its layout, and none of a class of the library. A class without a
/// number, which no closed set has, is answered as want of memory.
fn layout_at(order: &IndexSet<u16>, layouts: &[Layout], class: u16) -> Result<Layout, IdsRefusal>
    ensures layout { IfOk result (λ layout. (files : List Record) → layouts.now ≡ map (layout_of files) order.now.keys → layout ≡ layout_of files class) }
    ensures memory { IfErr result (λ why. why ≡ Memory) }
{
    if class < FIRST_OWN {
        return Ok(NO_FIELDS);
    }
    match order.get_index_of(&class) {
        Some(position) => match nth(layouts, position) {
            Ok(layout) => Ok(layout),
            Err(why) => Err(why),
        },
        None => Err(IdsRefusal::Memory),
    }
}

/// The fields of an object of the superclass of a class.
fn layout_above(
    set: &ClassSet,
    order: &IndexSet<u16>,
    layouts: &[Layout],
    class: u16,
) -> Result<Layout, IdsRefusal>
    requires { layouts.now ≡ map (layout_of set.now) order.now.keys }
    ensures above { IfOk result (λ layout. layout ≡ layout_in (fields_above set.now class)) }
    ensures memory { IfErr result (λ why. why ≡ Memory) }
{
    match set.superclass_of(class) {
        Some(upper) => match layout_at(order, layouts, upper) {
            Ok(layout) => Ok(layout),
            Err(why) => Err(why),
        },
        None => Ok(NO_FIELDS),
    }
}

/// Counts the fields of a class, and lists them with their places.
fn add_class(
    alloc: Global,
    set: &ClassSet,
    order: &IndexSet<u16>,
    layouts: &[Layout],
    class: u16,
    counts: &mut Counts,
    places: &mut PlaceList,
) -> Result<(), IdsRefusal>
    requires { layouts.now ≡ map (layout_of set.now) order.now.keys }
    ensures placed { OnOk result ((before after : List Field) → StandsAmong set.now class before after → ArePlaced set.now before counts.old.statics places.old → ArePlaced set.now (before ++ class_fields set.now class) counts.new.statics places.new) }
    ensures memory { IfErr result (λ why. why ≡ Memory) }
{
    match file_of(set, class) {
        Some(file) => match layout_above(set, order, layouts, class) {
            Ok(object) => {
                counts.object = object;
                match add_fields(alloc, class, file, counts, places) {
                    Ok(()) => Ok(()),
                    Err(why) => Err(why),
                }
            }
            Err(why) => Err(why),
        },
        None => Ok(()),
    }
}

/// The fields of a set with their places, in the order of the ids of their classes, at the cost of a look-up for each
/// class and each field. `layouts` are those of the classes in this order. Limits are tested before: a place that two
/// bytes do not hold is answered as want of memory.
pub(crate) fn places(
    alloc: Global,
    set: &ClassSet,
    order: &IndexSet<u16>,
    layouts: &[Layout],
) -> Result<PlaceList, IdsRefusal>
    requires closed { Gathers set.now None }
    requires order { order.now.keys ≡ class_order set.now }
    requires layouts { layouts.now ≡ map (layout_of set.now) order.now.keys }
    ensures placed { IfOk result (λ places. places ≡ map (placed set.now) (all_fields set.now)) }
    ensures memory { IfErr result (λ why. why ≡ Memory) }
{
    let mut counts = Counts {
        statics: NO_FIELDS,
        object: NO_FIELDS,
    };
    let mut places = PlaceList::new(alloc);
    for class in order.as_slice() {
        match add_class(alloc, set, order, layouts, *class, &mut counts, &mut places) {
            Ok(()) => {}
            Err(why) => return Err(why),
        }
    }
    Ok(places)
}
