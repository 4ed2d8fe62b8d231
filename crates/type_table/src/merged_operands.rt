//! The merge of the operands of two frames: where both have the same entry, those below are the same.

ghost use Rattle.std.specs.Prelude.{◌≡◌, ◌≤◌, None, length, IfOk, MatchOption};
ghost use Rattle.std.specs.List.{AllByRecursion};
ghost use Rattle.class_tree.specs.Tree.{Gathers};
ghost use Rattle.class_tree.specs.MergeLaws.{IsKnown};
ghost use Rattle.jvm_model.specs.TypesFrames.{may_be_operand as may_be_operand_of, merge_lists};
ghost use Rattle.type_table.specs.Frames.{Begins};
ghost use Rattle.type_table.specs.Chains.{chain_of, HasChain};
ghost use Rattle.type_table.specs.Merges.{AreMerged, AreOperands, IsMergedChain, IsTops};

use crate::objects::is_same;
use crate::operands::{Chain, below, push_all, split_top};
use crate::store::{Cell, Memory};
use body_form::VType;
use class_tree::ClassSet;
use flow_kinds::merge;
use std::alloc::Global;

/// What the merge of two chains is.
#[derive(Clone, Copy, Debug)]
pub(crate) enum MergedChain {
    /// The operands do not merge.
    Clash,
    /// The upper chain.
    Same,
    /// Another chain.
    Grown(Chain),
}

/// Something is known of the value.
fn may_be_operand(value: VType) -> bool
    ensures { result ≡ may_be_operand_of value }
{
    !matches!(value, VType::Top)
}

/// The top operands of two chains of one height, each with those below it; `None` where the chains are the same.
fn split_tops(cells: &[Cell], upper: Chain, lower: Chain) -> Option<((Cell, Chain), (Cell, Chain))>
    requires upper { HasChain cells.now upper }
    requires lower { HasChain cells.now lower }
    requires same { upper.height ≡ lower.height }
    ensures { MatchOption result (chain_of cells.now upper ≡ chain_of cells.now lower) (λ tops. IsTops cells.now upper lower tops.0 tops.1) }
{
    if upper.top == lower.top {
        return None;
    }
    let Some(a) = split_top(cells, upper) else {
        return None;
    };
    let Some(b) = split_top(cells, lower) else {
        return None;
    };
    Some((a, b))
}

/// The types that take the place of the top operands of the upper chain, down to the lowest one that changes. `None`
/// where the chains do not merge.
fn merged_values(
    alloc: Global,
    set: &ClassSet,
    cells: &[Cell],
    upper: Chain,
    lower: Chain,
) -> Result<Option<Vec<VType>>, Memory>
    requires gathered { Gathers set.now None }
    requires upper { HasChain cells.now upper }
    requires lower { HasChain cells.now lower }
    requires same { upper.height ≡ lower.height }
    requires known_upper { AllByRecursion (IsKnown set.now) (chain_of cells.now upper) }
    requires known_lower { AllByRecursion (IsKnown set.now) (chain_of cells.now lower) }
    requires operands { AreOperands (chain_of cells.now upper) }
    ensures merged { IfOk result (λ found. MatchOption found (merge_lists set.now may_be_operand_of (chain_of cells.now upper) (chain_of cells.now lower) ≡ None)
        (λ values. AreMerged (chain_of cells.now upper) (merge_lists set.now may_be_operand_of (chain_of cells.now upper) (chain_of cells.now lower)) values.items)) }
    ensures within { IfOk result (λ found. MatchOption found (upper.height ≡ lower.height) (λ values. length values.items ≤ upper.height)) }
{
    let mut values = Vec::new(alloc);
    let mut count = 0;
    let mut above = upper;
    let mut below = lower;
    while let Some(((a, next_above), (b, next_below))) = split_tops(cells, above, below) {
        let value = merge(set, a.value, b.value);
        if !may_be_operand(value) {
            return Ok(None);
        }
        values.push(value)?;
        if !is_same(value, a.value) {
            count = values.len();
        }
        above = next_above;
        below = next_below;
    }
    values.truncate(count);
    Ok(Some(values))
}

/// The merge of the operands of two frames.
pub(crate) fn merged_operands(
    alloc: Global,
    set: &ClassSet,
    cells: &mut Vec<Cell>,
    upper: Chain,
    lower: Chain,
) -> Result<MergedChain, Memory>
    requires gathered { Gathers set.now None }
    requires upper { HasChain cells.old.items upper }
    requires lower { HasChain cells.old.items lower }
    requires known_upper { AllByRecursion (IsKnown set.now) (chain_of cells.old.items upper) }
    requires known_lower { AllByRecursion (IsKnown set.now) (chain_of cells.old.items lower) }
    requires operands { AreOperands (chain_of cells.old.items upper) }
    ensures begins { Begins cells.old.items cells.new.items }
    ensures merged { IfOk result (IsMergedChain cells.new.items (chain_of cells.old.items upper) (merge_lists set.now may_be_operand_of (chain_of cells.old.items upper) (chain_of cells.old.items lower))) }
{
    if upper.height != lower.height {
        return Ok(MergedChain::Clash);
    }
    let Some(values) = merged_values(alloc, set, cells, upper, lower)? else {
        return Ok(MergedChain::Clash);
    };
    if values.is_empty() {
        return Ok(MergedChain::Same);
    }
    let rest = below(cells, upper, values.len() as u32);
    let chain = push_all(cells, rest, &values)?;
    Ok(MergedChain::Grown(chain))
}
