//! The statics, and the id of main.

ghost use Rattle.std.specs.Prelude.{◌≡◌, []};
ghost use Rattle.image_form.specs.Refused.{Shows};
ghost use Rattle.image_form.specs.Reading.{items_at, in_statics, in_main, static_refs_at, cell_at, static_cells_at, main_at};

use crate::ids::names_main;
use crate::part::u2_at;
use crate::record::Method;
use crate::refusal::FormRefusal;
use item_list::Items;
use std::alloc::Global;

/// The most static references, and the most static cells.
const MOST_STATICS: u16 = 16_384;

/// The refusal of a count of statics.
fn bad_statics() -> FormRefusal
    ensures { result ≡ in_statics }
{
    FormRefusal::BadTable { table: 3, index: 0 }
}

/// The refusal of main.
fn bad_main() -> FormRefusal
    ensures { result ≡ in_main }
{
    FormRefusal::BadTable { table: 4, index: 0 }
}

/// How many statics are references.
#[tactic(auto, unfolding(crate::specs::Reading::static_refs_at))]
pub(crate) fn static_refs_at(bytes: &[u8]) -> Result<(u16, &[u8]), FormRefusal>
    ensures { Shows (λ x. (x.0, x.1.now)) result (static_refs_at bytes.now) }
{
    let (count, rest) = u2_at(bytes)?;
    if count > MOST_STATICS {
        return Err(bad_statics());
    }
    Ok((count, rest))
}

/// So many initial cells.
fn listed_cells(alloc: Global, count: u16, bytes: &[u8]) -> Result<(Vec<u16>, &[u8]), FormRefusal>
    ensures { Shows (λ x. (x.0.items, x.1.now)) result (items_at cell_at count [] bytes.now) }
{
    let mut cells = Vec::new(alloc);
    let mut rest = bytes;
    for _ in 0..count {
        let (cell, after) = u2_at(rest)?;
        cells.push(cell)?;
        rest = after;
    }
    Ok((cells, rest))
}

/// The initial cells of the other statics, after their count.
#[tactic(auto, unfolding(crate::specs::Reading::static_cells_at))]
pub(crate) fn static_cells_at(
    alloc: Global,
    bytes: &[u8],
) -> Result<(Items<u16>, &[u8]), FormRefusal>
    ensures { Shows (λ x. (x.0, x.1.now)) result (static_cells_at bytes.now) }
{
    let (count, rest) = u2_at(bytes)?;
    if count > MOST_STATICS {
        return Err(bad_statics());
    }
    let (cells, rest) = listed_cells(alloc, count, rest)?;
    Ok((Items::from_vec(cells), rest))
}

/// The id of main, a method of the image without arguments and result.
#[tactic(auto, unfolding(crate::specs::Reading::main_at))]
pub(crate) fn main_at<'a>(
    methods: &[Method],
    bytes: &'a [u8],
) -> Result<(u16, &'a [u8]), FormRefusal>
    ensures { Shows (λ x. (x.0, x.1.now)) result (main_at methods.now bytes.now) }
{
    let (main, rest) = u2_at(bytes)?;
    if !names_main(methods, main) {
        return Err(bad_main());
    }
    Ok((main, rest))
}
