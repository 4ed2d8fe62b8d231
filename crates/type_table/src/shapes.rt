//! How many of the operands of each row are whole numbers, counted once for all chains that share cells.

ghost use Rattle.std.specs.Prelude.{◌≡◌, Some, map, slice_get, cond, IfOk, IfSome};
ghost use Rattle.std.specs.List.{AllByRecursion};
ghost use Rattle.jvm_model.specs.TypesFrames.{is_int as is_int_of};
ghost use Rattle.type_table.specs.Chains.{chain_at, chain_of, HasChain};
ghost use Rattle.type_table.specs.Counts.{ints_in, AreCounted};

use crate::operands::{Chain, split_top};
use crate::store::{Cell, FrameId, Memory};
use body_form::VType;
use std::alloc::Global;

/// What is noted of a cell: how many of so many operands from it downwards are whole numbers.
#[derive(Clone, Copy, Debug)]
pub(crate) struct Counted {
    pub(crate) height: u32,
    pub(crate) ints: u32,
}

/// 1 for a whole number.
fn int_count(value: VType) -> u32
    ensures { result ≡ cond (is_int_of value) 1 0 }
{
    u32::from(matches!(value, VType::Int))
}

/// How many operands of a chain are whole numbers, where it is noted.
fn noted(counts: &[Counted], chain: Chain) -> Option<u32>
    ensures { IfSome result (λ ints. slice_get counts.now chain.top ≡ Some (record { height = chain.height; ints = ints })) }
{
    match counts.get(chain.top as usize).copied() {
        Some(counted) if counted.height == chain.height => Some(counted.ints),
        _ => None,
    }
}

/// How many operands of a chain are whole numbers: those down to the first cell of which it is noted are looked at.
fn count_ints(cells: &[Cell], counts: &[Counted], chain: Chain) -> u32
    requires has { HasChain cells.now chain }
    requires counted { AreCounted cells.now counts.now }
    ensures { result ≡ ints_in (chain_of cells.now chain) }
{
    let mut passed = 0;
    let mut rest = chain;
    while let Some((cell, below)) = split_top(cells, rest) {
        if let Some(ints) = noted(counts, rest) {
            return passed + ints;
        }
        passed += int_count(cell.value);
        rest = below;
    }
    passed
}

/// Notes how many operands of a chain are whole numbers, of each cell down to the first of which it is noted.
fn note_ints(cells: &[Cell], counts: &mut [Counted], chain: Chain, ints: u32)
    requires has { HasChain cells.now chain }
    requires counted { AreCounted cells.now counts.old }
    requires ints { ints ≡ ints_in (chain_of cells.now chain) }
    ensures { AreCounted cells.now counts.new }
{
    let mut left = ints;
    let mut rest = chain;
    while let Some((cell, below)) = split_top(cells, rest) {
        if noted(counts, rest).is_some() {
            return;
        }
        counts[rest.top as usize] = Counted {
            height: rest.height,
            ints: left,
        };
        left -= int_count(cell.value);
        rest = below;
    }
}

/// How many operands of each row are whole numbers.
pub(crate) fn int_counts(
    alloc: Global,
    cells: &[Cell],
    rows: &[(u32, FrameId)],
) -> Result<Vec<u32>, Memory>
    requires { AllByRecursion (λ row. HasChain cells.now (chain_at row.1)) rows.now }
    ensures { IfOk result (λ counts. counts.items ≡ map (λ row. ints_in (chain_of cells.now (chain_at row.1))) rows.now) }
{
    let mut noted = vec![in alloc; Counted { height: 0, ints: 0 }; cells.len()]?;
    let mut counts = Vec::new(alloc);
    for row in rows {
        let chain = row.1.chain();
        let ints = count_ints(cells, &noted, chain);
        note_ints(cells, &mut noted, chain, ints);
        counts.push(ints)?;
    }
    Ok(counts)
}
