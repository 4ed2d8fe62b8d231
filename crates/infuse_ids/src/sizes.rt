//! How large the objects of classes are, before limits are tested.

ghost use Rattle.std.specs.Prelude.{◌≡◌, ◌+◌, ℕ, None, List, [], map, take, IfOk, IfErr};
ghost use Rattle.std.specs.Option.{option_map_or};
ghost use Rattle.std.specs.List.{fold};
ghost use Rattle.class_tree.specs.Tree.{Gathers};
ghost use Rattle.class_tree.specs.DirectSupers.{superclass_of};
ghost use Rattle.class_file.specs.declared.record.ClassFile.{ClassFile as Record};
ghost use Rattle.jvm_model.specs.ImageNumbering.{fields_of_object, layout_of};
ghost use Rattle.infuse_ids.specs.declared.refusal.IdsRefusal.TheVariants.{Memory};
ghost use Rattle.infuse_ids.specs.Places.{layout_in, with_kind as layout_with_kind};
ghost use Rattle.infuse_ids.specs.Sizes.{sized, with_member};

use crate::classes::file_of;
use crate::kinds::{cells, is_reference, kind_of};
use crate::refusal::IdsRefusal;
use class_file::{Member, is_static};
use class_pool::{Kind, Pool};
use class_tree::ClassSet;
use indexmap::IndexSet;
use library::FIRST_OWN;
use std::alloc::Global;

/// How many of the fields of an object are references, and how many cells the others take.
#[derive(Clone, Copy, Debug, PartialEq, Eq)]
pub(crate) struct Sizes {
    pub(crate) refs: u32,
    pub(crate) nums: u32,
}

/// No fields.
const NO_FIELDS: Sizes = Sizes { refs: 0, nums: 0 };

/// A sum; one that four bytes do not hold is answered as want of memory.
fn sum(count: u32, more: u32) -> Result<u32, IdsRefusal>
    ensures sum { IfOk result (λ sum. sum ≡ count + more) }
    ensures memory { IfErr result (λ why. why ≡ Memory) }
{
    match count.checked_add(more) {
        Some(sum) => Ok(sum),
        None => Err(IdsRefusal::Memory),
    }
}

/// The sizes with a field of a type.
fn with_kind(kind: &Kind, sizes: Sizes) -> Result<Sizes, IdsRefusal>
    ensures with { IfOk result (λ new. sized new ≡ layout_with_kind kind.now (sized sizes)) }
    ensures memory { IfErr result (λ why. why ≡ Memory) }
{
    if is_reference(kind) {
        return Ok(Sizes {
            refs: sum(sizes.refs, 1)?,
            nums: sizes.nums,
        });
    }
    Ok(Sizes {
        refs: sizes.refs,
        nums: sum(sizes.nums, u32::from(cells(kind)))?,
    })
}

/// The sizes with a field, where it is one of objects.
fn with_field(alloc: Global, pool: &Pool, field: &Member, sizes: Sizes) -> Result<Sizes, IdsRefusal>
    ensures with { IfOk result (λ new. sized new ≡ with_member pool.now (sized sizes) field.now) }
    ensures memory { IfErr result (λ why. why ≡ Memory) }
{
    if is_static(field.flags) {
        return Ok(sizes);
    }
    match kind_of(alloc, pool, field) {
        Ok(kind) => with_kind(&kind, sizes),
        Err(why) => Err(why),
    }
}

/// The sizes with those of these fields that are fields of objects.
fn with_fields(
    alloc: Global,
    pool: &Pool,
    fields: &[Member],
    sizes: Sizes,
) -> Result<Sizes, IdsRefusal>
    ensures with { IfOk result (λ new. sized new ≡ fold (with_member pool.now) (sized sizes) fields.now) }
    ensures memory { IfErr result (λ why. why ≡ Memory) }
{
    let mut all = sizes;
    for field in fields {
        match with_field(alloc, pool, field, all) {
            Ok(more) => all = more,
            Err(why) => return Err(why),
        }
    }
    Ok(all)
}

/// The sizes of the objects of a class: those of its position, and none of a class of the library. A class that has no
/// position yet, as none above another one has in a closed set, is answered as want of memory.
pub(crate) fn size_at(
    order: &IndexSet<u16>,
    sizes: &[Sizes],
    class: u16,
) -> Result<Sizes, IdsRefusal>
    ensures size { IfOk result (λ size. (files : List Record) (many : ℕ) → map sized sizes.now ≡ map (layout_of files) (take many order.now.keys) → sized size ≡ layout_of files class) }
    ensures memory { IfErr result (λ why. why ≡ Memory) }
{
    if class < FIRST_OWN {
        return Ok(NO_FIELDS);
    }
    match order.get_index_of(&class) {
        Some(position) => match sizes.get(position) {
            Some(size) => Ok(*size),
            None => Err(IdsRefusal::Memory),
        },
        None => Err(IdsRefusal::Memory),
    }
}

/// The sizes of the objects of the superclass of a class.
fn size_above(
    set: &ClassSet,
    order: &IndexSet<u16>,
    sizes: &[Sizes],
    class: u16,
) -> Result<Sizes, IdsRefusal>
    ensures size { IfOk result (λ size. (many : ℕ) → map sized sizes.now ≡ map (layout_of set.now) (take many order.now.keys) → sized size ≡ layout_in (option_map_or (fields_of_object set.now) (superclass_of set.now class) [])) }
    ensures memory { IfErr result (λ why. why ≡ Memory) }
{
    match set.superclass_of(class) {
        Some(upper) => size_at(order, sizes, upper),
        None => Ok(NO_FIELDS),
    }
}

/// The sizes of the objects of a class.
fn size_of(
    alloc: Global,
    set: &ClassSet,
    order: &IndexSet<u16>,
    sizes: &[Sizes],
    class: u16,
) -> Result<Sizes, IdsRefusal>
    requires { Gathers set.now None }
    ensures size { IfOk result (λ size. (many : ℕ) → map sized sizes.now ≡ map (layout_of set.now) (take many order.now.keys) → sized size ≡ layout_of set.now class) }
    ensures memory { IfErr result (λ why. why ≡ Memory) }
{
    let above = match size_above(set, order, sizes, class) {
        Ok(above) => above,
        Err(why) => return Err(why),
    };
    match file_of(set, class) {
        Some(file) => with_fields(alloc, &file.pool, file.fields.as_slice(), above),
        None => Ok(above),
    }
}

/// The sizes of the objects of the classes, in the order of the classes.
pub(crate) fn object_sizes(
    alloc: Global,
    set: &ClassSet,
    order: &IndexSet<u16>,
) -> Result<Vec<Sizes>, IdsRefusal>
    requires { Gathers set.now None }
    ensures sizes { IfOk result (λ sizes. map sized sizes.items ≡ map (layout_of set.now) order.now.keys) }
    ensures memory { IfErr result (λ why. why ≡ Memory) }
{
    let mut sizes = Vec::new(alloc);
    for class in order.as_slice() {
        match size_of(alloc, set, order, sizes.as_slice(), *class) {
            Ok(size) => sizes.push(size)?,
            Err(why) => return Err(why),
        }
    }
    Ok(sizes)
}
