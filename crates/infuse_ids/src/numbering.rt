//! The numbers of all that the image of a set names.

ghost use Rattle.std.specs.Prelude.{◌≡◌, ◌+◌, ◌≤◌, ℕ, None, Some, List, map, filter, length, OnOk, IfOk, IfErr};
ghost use Rattle.std.specs.List.{flat_map, AllByRecursion};
ghost use Rattle.class_pool.specs.declared.types.MemberId.{MemberId as Member};
ghost use Rattle.class_tree.specs.Tree.{Gathers};
ghost use Rattle.jvm_model.specs.Bodies.{AreBodies};
ghost use Rattle.jvm_model.specs.Entry.{entry_of};
ghost use Rattle.jvm_model.specs.ImageLimits.{excess, first_excess, first_large, file_layouts};
ghost use Rattle.jvm_model.specs.ImageNumbering.{all_fields, initial_cells, is_number_field, is_reference_field, layout_of, numbering_of, static_fields, class_order as class_order_of};
ghost use Rattle.jvm_model.specs.NumberedIds.{numbers_of};
ghost use Rattle.infuse_ids.specs.Orders.{AreByClass, methods_over, types_over, selectors_over};
ghost use Rattle.infuse_ids.specs.Places.{placed};
ghost use Rattle.infuse_ids.specs.Sizes.{RefusesFor, field_excess, list_excess, static_excess};

use crate::bodies::{method_order, type_order};
use crate::classes::class_order;
use crate::limits::{layouts, test_count, test_objects};
use crate::places::places;
use crate::refusal::IdsRefusal;
use crate::selectors::selector_order;
use crate::sizes::object_sizes;
use crate::statics::{Statics, initial_statics};
use body_form::Body;
use body_make::main_method;
use class_pool::MemberId;
use class_tree::ClassSet;
use indexmap::IndexSet;
use item_list::Items;
use jvm_model::{Ids, Layout, MemberList, PlaceList, SelectorList, TypeList};
use std::alloc::Global;

/// The ids of types and methods that each image has.
const LIBRARY_IDS: u32 = 32;

/// What is counted, as refusals name it.
const TYPES: u8 = 2;

const SELECTORS: u8 = 3;

const METHODS: u8 = 4;

const STATIC_REFS: u8 = 5;

const STATIC_CELLS: u8 = 6;

/// The most types.
const MOST_TYPES: u32 = 4096;

/// The most selectors, the most methods, and the most static references and static cells.
const MOST_OF_EACH: u32 = 16_384;

/// The types of a set, within their limit.
fn types(alloc: Global, order: &[u16], bodies: &[Body]) -> Result<TypeList, IdsRefusal>
    requires { AreByClass bodies.now }
    ensures types { IfOk result (λ types. types ≡ types_over order.now bodies.now) }
    ensures within { OnOk result (excess 2 (32 + length (types_over order.now bodies.now)) 4096 ≡ None) }
    ensures refused { IfErr result (RefusesFor (excess 2 (32 + length (types_over order.now bodies.now)) 4096)) }
{
    let types = type_order(alloc, order, bodies)?;
    match test_count(TYPES, LIBRARY_IDS, types.len(), MOST_TYPES) {
        Ok(()) => Ok(types),
        Err(why) => Err(why),
    }
}

/// The selectors of a set, within their limit.
fn selectors(alloc: Global, set: &ClassSet, order: &[u16]) -> Result<SelectorList, IdsRefusal>
    requires { AllByRecursion (λ class. 32 ≤ class) order.now }
    ensures selectors { IfOk result (λ selectors. selectors ≡ selectors_over set.now order.now) }
    ensures within { OnOk result (excess 3 (length (selectors_over set.now order.now)) 16384 ≡ None) }
    ensures refused { IfErr result (RefusesFor (excess 3 (length (selectors_over set.now order.now)) 16384)) }
{
    let selectors = selector_order(alloc, set, order)?;
    match test_count(SELECTORS, 0, selectors.len(), MOST_OF_EACH) {
        Ok(()) => Ok(selectors),
        Err(why) => Err(why),
    }
}

/// The methods of a set, within their limit.
fn methods(alloc: Global, order: &[u16], bodies: &[Body]) -> Result<MemberList, IdsRefusal>
    requires { AreByClass bodies.now }
    ensures methods { IfOk result (λ methods. methods ≡ methods_over order.now bodies.now) }
    ensures few { IfOk result (λ methods. 32 + length methods ≤ 16384) }
    ensures within { OnOk result (excess 4 (32 + length (methods_over order.now bodies.now)) 16384 ≡ None) }
    ensures refused { IfErr result (RefusesFor (excess 4 (32 + length (methods_over order.now bodies.now)) 16384)) }
{
    let methods = match method_order(alloc, order, bodies) {
        Ok(methods) => methods,
        Err(why) => return Err(why),
    };
    match test_count(METHODS, LIBRARY_IDS, methods.len(), MOST_OF_EACH) {
        Ok(()) => Ok(methods),
        Err(why) => Err(why),
    }
}

/// The layouts of the objects of a set, within their limit, in the order of the classes.
fn object_layouts(
    alloc: Global,
    set: &ClassSet,
    order: &IndexSet<u16>,
) -> Result<Items<Layout>, IdsRefusal>
    requires { Gathers set.now None }
    ensures layouts { IfOk result (λ layouts. layouts ≡ map (layout_of set.now) order.now.keys) }
    ensures within { OnOk result (first_large (file_layouts set.now) ≡ None) }
    ensures refused { IfErr result (RefusesFor (first_large (file_layouts set.now))) }
{
    let sizes = match object_sizes(alloc, set, order) {
        Ok(sizes) => sizes,
        Err(why) => return Err(why),
    };
    match test_objects(set, order, sizes.as_slice()) {
        Ok(()) => {}
        Err(why) => return Err(why),
    }
    match layouts(alloc, sizes.as_slice()) {
        Ok(layouts) => Ok(Items::from_vec(layouts)),
        Err(why) => Err(why),
    }
}

/// The static references and the cells of the other static fields of a set, within their limits.
fn static_numbers(alloc: Global, set: &ClassSet, order: &[u16]) -> Result<Statics, IdsRefusal>
    requires { order.now ≡ class_order_of set.now }
    ensures refs { IfOk result (λ statics. statics.refs ≡ length (filter is_reference_field (static_fields set.now))) }
    ensures cells { IfOk result (λ statics. statics.cells.items ≡ flat_map (initial_cells set.now) (filter is_number_field (static_fields set.now))) }
    ensures few { IfOk result (λ statics. statics.refs ≤ 16384) }
    ensures within { OnOk result (static_excess set.now ≡ None) }
    ensures refused { IfErr result (RefusesFor (static_excess set.now)) }
{
    let statics = match initial_statics(alloc, set, order) {
        Ok(statics) => statics,
        Err(why) => return Err(why),
    };
    match test_count(STATIC_REFS, 0, statics.refs as usize, MOST_OF_EACH) {
        Ok(()) => {}
        Err(why) => return Err(why),
    }
    match test_count(STATIC_CELLS, 0, statics.cells.len(), MOST_OF_EACH) {
        Ok(()) => Ok(statics),
        Err(why) => Err(why),
    }
}

/// The lists that come first.
#[derive(Debug, Drop)]
struct IdLists {
    types: TypeList,
    selectors: SelectorList,
    methods: MemberList,
}

/// The types, the selectors and the methods of a set, within their limits.
fn lists(
    alloc: Global,
    set: &ClassSet,
    order: &[u16],
    bodies: &[Body],
) -> Result<IdLists, IdsRefusal>
    requires bodies { AreByClass bodies.now }
    requires own { AllByRecursion (λ class. 32 ≤ class) order.now }
    ensures types { IfOk result (λ lists. lists.types ≡ types_over order.now bodies.now) }
    ensures selectors { IfOk result (λ lists. lists.selectors ≡ selectors_over set.now order.now) }
    ensures methods { IfOk result (λ lists. lists.methods ≡ methods_over order.now bodies.now) }
    ensures few { IfOk result (λ lists. 32 + length lists.methods ≤ 16384) }
    ensures within { OnOk result (list_excess set.now order.now bodies.now ≡ None) }
    ensures refused { IfErr result (RefusesFor (list_excess set.now order.now bodies.now)) }
{
    let types = match types(alloc, order, bodies) {
        Ok(types) => types,
        Err(why) => return Err(why),
    };
    let selectors = match selectors(alloc, set, order) {
        Ok(selectors) => selectors,
        Err(why) => return Err(why),
    };
    match methods(alloc, order, bodies) {
        Ok(methods) => Ok(IdLists {
            types,
            selectors,
            methods,
        }),
        Err(why) => Err(why),
    }
}

/// What is known of fields.
#[derive(Debug, Drop)]
struct FieldNumbers {
    statics: Statics,
    layouts: Items<Layout>,
    places: PlaceList,
}

/// The static fields, the layouts and the places of the fields of a set, within their limits.
fn fields(alloc: Global, set: &ClassSet, order: &IndexSet<u16>) -> Result<FieldNumbers, IdsRefusal>
    requires closed { Gathers set.now None }
    requires order { order.now.keys ≡ class_order_of set.now }
    ensures refs { IfOk result (λ fields. fields.statics.refs ≡ length (filter is_reference_field (static_fields set.now))) }
    ensures cells { IfOk result (λ fields. fields.statics.cells.items ≡ flat_map (initial_cells set.now) (filter is_number_field (static_fields set.now))) }
    ensures few { IfOk result (λ fields. fields.statics.refs ≤ 16384) }
    ensures layouts { IfOk result (λ fields. fields.layouts ≡ map (layout_of set.now) (class_order_of set.now)) }
    ensures placed { IfOk result (λ fields. fields.places ≡ map (placed set.now) (all_fields set.now)) }
    ensures within { OnOk result (field_excess set.now ≡ None) }
    ensures refused { IfErr result (RefusesFor (field_excess set.now)) }
{
    let statics = match static_numbers(alloc, set, order.as_slice()) {
        Ok(statics) => statics,
        Err(why) => return Err(why),
    };
    let layouts = match object_layouts(alloc, set, order) {
        Ok(layouts) => layouts,
        Err(why) => return Err(why),
    };
    match places(alloc, set, order, layouts.as_slice()) {
        Ok(places) => Ok(FieldNumbers {
            statics,
            layouts,
            places,
        }),
        Err(why) => Err(why),
    }
}

/// The numbers of a set whose main is this method.
fn number_for(
    alloc: Global,
    set: &ClassSet,
    bodies: &[Body],
    main: MemberId,
) -> Result<Ids, IdsRefusal>
    requires closed { Gathers set.now None }
    requires bodies { AreBodies set.now bodies.now }
    ensures numbers { IfOk result (λ ids. numbers_of ids ≡ numbering_of set.now bodies.now main) }
    ensures fits { OnOk result (first_excess set.now (numbering_of set.now bodies.now main) ≡ None) }
    ensures refused { IfErr result (RefusesFor (first_excess set.now (numbering_of set.now bodies.now main))) }
{
    let order = match class_order(alloc, set) {
        Ok(order) => order,
        Err(why) => return Err(why),
    };
    let lists = match lists(alloc, set, order.as_slice(), bodies) {
        Ok(lists) => lists,
        Err(why) => return Err(why),
    };
    let fields = match fields(alloc, set, &order) {
        Ok(fields) => fields,
        Err(why) => return Err(why),
    };
    let main = lists.methods.id_of(main);
    Ok(Ids {
        types: lists.types,
        selectors: lists.selectors,
        methods: lists.methods,
        layouts: fields.layouts,
        fields: fields.places,
        static_refs: fields.statics.refs as u16,
        static_cells: Items::from_vec(fields.statics.cells),
        main,
    })
}

/// The numbers of all that the image of a set names. The bodies are those that `body_make` answered for the set. A
/// refusal names the first count above its limit, in the order of types, selectors, methods, static references, static
/// cells, and the cells of an object over the files in order. A set without an entry, which has no bodies, is answered as
/// want of memory. Costs a look-up for each class, method, field and type that is named.
pub fn number(alloc: Global, set: &ClassSet, bodies: &[Body]) -> Result<Ids, IdsRefusal>
    requires closed { Gathers set.now None }
    requires bodies { AreBodies set.now bodies.now }
    ensures numbers { IfOk result (λ ids. (main : Member) → entry_of set.now ≡ Some main → numbers_of ids ≡ numbering_of set.now bodies.now main) }
    ensures fits { IfOk result (λ ids. first_excess set.now (numbers_of ids) ≡ None) }
    ensures refused { IfErr result (λ why. (main : Member) → entry_of set.now ≡ Some main → RefusesFor (first_excess set.now (numbering_of set.now bodies.now main)) why) }
{
    match main_method(set) {
        Some(main) => number_for(alloc, set, bodies, main),
        None => Err(IdsRefusal::Memory),
    }
}
