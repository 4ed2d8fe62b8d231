//! The image of a set.

ghost use Rattle.std.specs.Prelude.{◌≡◌, ◌⊎◌, None, Some, List, map, OnOk, IfOk, IfErr};
ghost use Rattle.std.specs.List.{AllByRecursion};
ghost use Rattle.class_pool.specs.declared.types.MemberId.{MemberId};
ghost use Rattle.class_tree.specs.Tree.{Gathers};
ghost use Rattle.jvm_model.specs.declared.refusal.Cause.TheVariants as cause;
ghost use Rattle.jvm_model.specs.Bodies.{AreBodies};
ghost use Rattle.jvm_model.specs.Entry.{entry_of};
ghost use Rattle.jvm_model.specs.ImageLimits.{first_excess};
ghost use Rattle.jvm_model.specs.ImageNumbering.{numbering_of};
ghost use Rattle.jvm_model.specs.ImageTables.{image_with};
ghost use Rattle.jvm_model.specs.NumberedIds.{numbers_of};
ghost use Rattle.set_image.specs.Linked.{Linked};
ghost use Rattle.set_image.specs.LinkRefusals.{count_refusal, IsLinkedImage, IsLinkRefusal};
ghost use Rattle.infuse_tables.specs.Tables.{FitTables, IsShort};
ghost use Rattle.infuse_sets.specs.TypedBodies.{AreOf};

use crate::code::methods_of;
use crate::forms::test_forms;
use crate::frames::laid_out;
use crate::refusals::no_memory;
use crate::typed::TypedBody;
use body_form::Body;
use class_tree::ClassSet;
use image_form::{Image, Method};
use infuse_ids::{IdsRefusal, number};
use infuse_tables::{selector_signatures, type_entries};
use item_list::Items;
use jvm_model::{Cause, Ids, Refusal};
use std::alloc::Global;

/// The format of images.
const VERSION: u16 = 1;

/// The numbers of what the image names.
fn ids_of(alloc: Global, set: &ClassSet, bodies: &[Body]) -> Result<Ids, Refusal>
    ghost main: { MemberId }

    requires closed { Gathers set.now None }
    requires bodies { AreBodies set.now bodies.now }
    requires main { entry_of set.now ≡ Some main }
    ensures numbers { IfOk result (λ ids. numbers_of ids ≡ numbering_of set.now bodies.now main) }
    ensures fits { OnOk result (first_excess set.now (numbering_of set.now bodies.now main) ≡ None) }
    ensures refused { IfErr result (λ why. (why.cause ≡ cause.Memory) ⊎ (count_refusal set.now (numbering_of set.now bodies.now main) ≡ Some why)) }
{
    match number(alloc, set, bodies) {
        Ok(ids) => Ok(ids),
        Err(IdsRefusal::TooMany { what, count }) => Err(Refusal {
            cause: Cause::TooMany,
            file: 0,
            member: u32::from(what),
            pc: 0,
            value: count,
        }),
        Err(IdsRefusal::Memory) => Err(no_memory()),
    }
}

/// The image with these methods and numbers.
fn with_tables(
    alloc: Global,
    set: &ClassSet,
    ids: Ids,
    methods: Vec<Method>,
) -> Result<Image, Refusal>
    requires fit { FitTables set.now (numbers_of ids) }
    requires short { AllByRecursion IsShort ids.selectors }
    ensures image { IfOk result (λ image. image ≡ image_with set.now (numbers_of ids) methods.items) }
    ensures memory { IfErr result (λ why. why.cause ≡ cause.Memory) }
{
    let Ok(types) = type_entries(alloc, set, &ids) else {
        return Err(no_memory());
    };
    let Ok(selectors) = selector_signatures(alloc, &ids) else {
        return Err(no_memory());
    };
    Ok(Image {
        version: VERSION,
        types: Items::from_vec(types),
        selectors: Items::from_vec(selectors),
        methods: Items::from_vec(methods),
        static_refs: ids.static_refs,
        static_cells: ids.static_cells,
        main: ids.main,
    })
}

/// The image of a closed set of classes whose bodies have these types, or why it has none: a form that does not run so
/// far, then a frame of more than 32,767 cells, then too many of one kind, then code of more than 65,535 bytes. The bodies
/// are those of the set, in the order of its files and of their methods.
pub fn image_of(
    alloc: Global,
    set: &ClassSet,
    bodies: &[Body],
    typed: &[TypedBody<'_>],
) -> Result<Image, Refusal>
    ghost linked: { Linked }

    requires set { AreOf linked set.now typed.now }
    requires bodies { map (λ one. one.body.now) typed.now ≡ bodies.now }
    ensures image { IfOk result (IsLinkedImage linked) }
    ensures refused { IfErr result (IsLinkRefusal linked) }
{
    match test_forms(bodies) {
        Ok(()) => {}
        Err(why) => return Err(why),
    }
    let laid = match laid_out(alloc, typed) {
        Ok(laid) => laid,
        Err(why) => return Err(why),
    };
    let ids = match ids_of(alloc, set, bodies) {
        Ok(ids) => ids,
        Err(why) => return Err(why),
    };
    match methods_of(alloc, set, &laid, &ids) {
        Ok(methods) => with_tables(alloc, set, ids, methods),
        Err(why) => Err(why),
    }
}
