//! Counts of references and of cells, and the place of the next field behind them.

ghost use Rattle.std.specs.Prelude.{◌≡◌, ◌+◌, ◌||◌, true, OnOk, IfOk, IfErr};
ghost use Rattle.jvm_model.specs.Initialisers.{is_reference_kind, is_whole_kind};
ghost use Rattle.infuse_ids.specs.Places.{place_behind, with_kind};
ghost use Rattle.infuse_ids.specs.declared.refusal.IdsRefusal.TheVariants.{Memory};

use crate::kinds::{cells, is_reference, is_whole};
use crate::refusal::IdsRefusal;
use class_pool::Kind;
use jvm_model::Layout;

/// A count with so many more; a count that two bytes do not hold is answered as want of memory.
fn more(count: u16, by: u16) -> Result<u16, IdsRefusal>
    ensures sum { IfOk result (λ sum. sum ≡ count + by) }
    ensures memory { IfErr result (λ why. why ≡ Memory) }
{
    match count.checked_add(by) {
        Some(sum) => Ok(sum),
        None => Err(IdsRefusal::Memory),
    }
}

/// Counts a reference, and answers its place.
fn next_reference(counts: &mut Layout) -> Result<u16, IdsRefusal>
    ensures place { IfOk result (λ place. place ≡ counts.old.refs) }
    ensures counted { OnOk result (counts.new ≡ record { refs = counts.old.refs + 1; nums = counts.old.nums }) }
    ensures memory { IfErr result (λ why. why ≡ Memory) }
{
    let place = counts.refs;
    match more(place, 1) {
        Ok(refs) => {
            counts.refs = refs;
            Ok(place)
        }
        Err(why) => Err(why),
    }
}

/// Counts so many cells, and answers the first one.
fn next_cells(by: u16, counts: &mut Layout) -> Result<u16, IdsRefusal>
    ensures place { IfOk result (λ place. place ≡ counts.old.nums) }
    ensures counted { OnOk result (counts.new ≡ record { refs = counts.old.refs; nums = counts.old.nums + by }) }
    ensures memory { IfErr result (λ why. why ≡ Memory) }
{
    let place = counts.nums;
    match more(place, by) {
        Ok(nums) => {
            counts.nums = nums;
            Ok(place)
        }
        Err(why) => Err(why),
    }
}

/// Counts a field of a type, and answers its place behind those that were counted: among the references, or the first of
/// its cells. A wide type, which no closed set has, is answered as want of memory.
pub(crate) fn next_place(kind: &Kind, counts: &mut Layout) -> Result<u16, IdsRefusal>
    ensures known { OnOk result ((is_reference_kind kind.now || is_whole_kind kind.now) ≡ true) }
    ensures place { IfOk result (λ place. place ≡ place_behind kind.now counts.old) }
    ensures counted { OnOk result (counts.new ≡ with_kind kind.now counts.old) }
    ensures memory { IfErr result (λ why. why ≡ Memory) }
{
    if is_reference(kind) {
        return next_reference(counts);
    }
    if !is_whole(kind) {
        return Err(IdsRefusal::Memory);
    }
    next_cells(cells(kind), counts)
}
