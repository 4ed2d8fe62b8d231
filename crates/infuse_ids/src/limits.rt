//! The limits of what an image numbers.

ghost use Rattle.std.specs.Prelude.{◌≡◌, ◌+◌, ◌≤◌, None, map, IfSome, OnOk, IfOk, IfErr};
ghost use Rattle.jvm_model.specs.ImageLimits.{excess, object_cells, first_large, file_layouts};
ghost use Rattle.jvm_model.specs.ImageNumbering.{layout_of};
ghost use Rattle.infuse_ids.specs.declared.refusal.IdsRefusal.TheVariants.{Memory};
ghost use Rattle.infuse_ids.specs.Sizes.{sized, RefusesFor};

use crate::refusal::IdsRefusal;
use crate::sizes::{Sizes, size_at};
use class_tree::ClassSet;
use indexmap::IndexSet;
use jvm_model::Layout;
use library::FIRST_OWN;
use std::alloc::Global;

/// The cells of the header of an object.
const HEADER_CELLS: u32 = 2;

/// The most cells of an object.
const MOST_OBJECT_CELLS: u32 = 32_767;

/// What is counted where an object is too large.
const OBJECT_CELLS: u8 = 7;

/// A total, where four bytes hold it.
fn total(kept: u32, own: usize) -> Option<u32>
    ensures { IfSome result (λ count. count ≡ kept + own) }
{
    let own = u32::try_from(own).ok()?;
    kept.checked_add(own)
}

/// Tests a count of one kind: those that each image has, and a set's own. A count that four bytes do not hold is answered
/// as want of memory.
pub(crate) fn test_count(what: u8, kept: u32, own: usize, limit: u32) -> Result<(), IdsRefusal>
    ensures within { OnOk result (kept + own ≤ limit) }
    ensures passed { OnOk result (excess what (kept + own) limit ≡ None) }
    ensures refused { IfErr result (RefusesFor (excess what (kept + own) limit)) }
{
    match total(kept, own) {
        Some(count) => {
            if limit < count {
                return Err(IdsRefusal::TooMany { what, count });
            }
            Ok(())
        }
        None => Err(IdsRefusal::Memory),
    }
}

/// The cells of an object, where four bytes hold their count.
fn cells_of(sizes: Sizes) -> Option<u32>
    ensures { IfSome result (λ cells. cells ≡ object_cells (sized sizes)) }
{
    HEADER_CELLS
        .checked_add(sizes.refs)?
        .checked_add(sizes.nums)
}

/// Tests the size of an object.
fn test_object(sizes: Sizes) -> Result<(), IdsRefusal>
    ensures passed { OnOk result (excess 7 (object_cells (sized sizes)) 32767 ≡ None) }
    ensures refused { IfErr result (RefusesFor (excess 7 (object_cells (sized sizes)) 32767)) }
{
    match cells_of(sizes) {
        Some(cells) => {
            if MOST_OBJECT_CELLS < cells {
                return Err(IdsRefusal::TooMany {
                    what: OBJECT_CELLS,
                    count: cells,
                });
            }
            Ok(())
        }
        None => Err(IdsRefusal::Memory),
    }
}

/// Tests the sizes of the objects of all classes, in the order of the files. `sizes` are in the order of the classes.
pub(crate) fn test_objects(
    set: &ClassSet,
    order: &IndexSet<u16>,
    sizes: &[Sizes],
) -> Result<(), IdsRefusal>
    requires { map sized sizes.now ≡ map (layout_of set.now) order.now.keys }
    ensures passed { OnOk result (first_large (file_layouts set.now) ≡ None) }
    ensures refused { IfErr result (RefusesFor (first_large (file_layouts set.now))) }
{
    for position in 0..set.file_count() {
        let size = match size_at(order, sizes, FIRST_OWN + position) {
            Ok(size) => size,
            Err(why) => return Err(why),
        };
        match test_object(size) {
            Ok(()) => {}
            Err(why) => return Err(why),
        }
    }
    Ok(())
}

/// The layout of an object of this size, where two bytes hold each of its counts.
fn layout_for(sizes: Sizes) -> Option<Layout>
    ensures { IfSome result (λ layout. layout ≡ sized sizes) }
{
    Some(Layout {
        refs: u16::try_from(sizes.refs).ok()?,
        nums: u16::try_from(sizes.nums).ok()?,
    })
}

/// Layouts of these sizes. A size that two bytes do not hold, as none within the limits, is answered as want of memory.
pub(crate) fn layouts(alloc: Global, sizes: &[Sizes]) -> Result<Vec<Layout>, IdsRefusal>
    ensures layouts { IfOk result (λ layouts. layouts.items ≡ map sized sizes.now) }
    ensures memory { IfErr result (λ why. why ≡ Memory) }
{
    let mut layouts = Vec::new(alloc);
    for size in sizes {
        match layout_for(*size) {
            Some(layout) => layouts.push(layout)?,
            None => return Err(IdsRefusal::Memory),
        }
    }
    Ok(layouts)
}
