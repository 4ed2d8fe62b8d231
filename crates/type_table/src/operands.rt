//! Operands as chains of cells, from the top one downwards.

ghost use Rattle.std.specs.Prelude.{◌≡◌, ◌≤◌, ◌+◌, ◌++◌, ◌∷◌, [], false, map, take, drop, length, slice_get, IfOk, MatchOption};
ghost use Rattle.std.specs.List.{list_any};
ghost use Rattle.class_tree.specs.Subtypes.{class_type};
ghost use Rattle.body_form.specs.declared.types.VType.TheVariants as known;
ghost use Rattle.jvm_model.specs.TypesRules.{is_same_object as is_same_object_of, renamed as renamed_list, renamed_one};
ghost use Rattle.type_table.specs.Frames.{Begins, IsMarked};
ghost use Rattle.type_table.specs.Chains.{chain_of, HasChain, IsTop, IsChain};

use crate::change::Change;
use crate::objects::{is_same_object, is_unconstructed, renamed};
use crate::store::{Cell, MOST_ENTRIES, Memory};
use body_form::VType;
use class_pool::{TypeBase, TypeRef};
use std::alloc::{AllocError, Global};

/// So many operands, from an entry downwards.
#[derive(Clone, Copy, Debug)]
pub(crate) struct Chain {
    pub(crate) height: u32,
    pub(crate) top: u32,
}

// ---- reading

/// The top operand, and those below it.
pub(crate) fn split_top(cells: &[Cell], chain: Chain) -> Option<(Cell, Chain)>
    requires { HasChain cells.now chain }
    ensures { MatchOption result (chain.height ≡ 0) (λ split. IsTop cells.now chain split.0 split.1) }
{
    if chain.height == 0 {
        return None;
    }
    let cell = cells[chain.top as usize];
    let below = Chain {
        height: chain.height - 1,
        top: cell.below,
    };
    Some((cell, below))
}

/// The operands below so many.
pub(crate) fn below(cells: &[Cell], chain: Chain, count: u32) -> Chain
    requires has { HasChain cells.now chain }
    requires count { count ≤ chain.height }
    ensures below { IsChain cells.now result (drop count (chain_of cells.now chain)) }
    ensures height { result.height + count ≡ chain.height }
{
    let mut rest = chain;
    for _ in 0..count {
        if let Some((_, below)) = split_top(cells, rest) {
            rest = below;
        }
    }
    rest
}

/// The operand at a position, the top one at 0.
pub(crate) fn operand_at(cells: &[Cell], chain: Chain, position: u32) -> Option<VType>
    requires { HasChain cells.now chain }
    ensures { result ≡ slice_get (chain_of cells.now chain) position }
{
    let rest = below(cells, chain, position.min(chain.height));
    match split_top(cells, rest) {
        Some((cell, _)) => Some(cell.value),
        None => None,
    }
}

/// The top so many operands.
pub(crate) fn top_values(
    alloc: Global,
    cells: &[Cell],
    chain: Chain,
    count: u32,
) -> Result<Vec<VType>, Memory>
    requires has { HasChain cells.now chain }
    requires count { count ≤ chain.height }
    ensures { IfOk result (λ values. values.items ≡ take count (chain_of cells.now chain)) }
{
    let mut values = Vec::new(alloc);
    let mut rest = chain;
    for _ in 0..count {
        if let Some((cell, below)) = split_top(cells, rest) {
            values.push(cell.value)?;
            rest = below;
        }
    }
    Ok(values)
}

/// Whether an object that is not yet constructed is among the operands.
pub(crate) fn has_object(cells: &[Cell], chain: Chain, object: VType) -> bool
    requires { HasChain cells.now chain }
    ensures { result ≡ list_any (is_same_object_of object) (chain_of cells.now chain) }
{
    let mut rest = chain;
    while let Some((cell, below)) = split_top(cells, rest) {
        if !cell.unconstructed {
            return false;
        }
        if is_same_object(object, cell.value) {
            return true;
        }
        rest = below;
    }
    false
}

/// How many operands there are down to the lowest one that is the object, it among them; 0 where none is.
fn count_to_object(cells: &[Cell], chain: Chain, object: VType) -> u32
    requires { HasChain cells.now chain }
    ensures within { result ≤ chain.height }
    ensures rest { list_any (is_same_object_of object) (drop result (chain_of cells.now chain)) ≡ false }
{
    let mut count = 0;
    let mut rest = chain;
    while let Some((cell, below)) = split_top(cells, rest) {
        if !cell.unconstructed {
            return count;
        }
        rest = below;
        if is_same_object(object, cell.value) {
            count = chain.height - rest.height;
        }
    }
    count
}

// ---- making

/// A mark for the operands.
fn mark_of(cells: &[Cell], chain: Chain) -> bool
    requires { HasChain cells.now chain }
    ensures { IsMarked result (chain_of cells.now chain) }
{
    match split_top(cells, chain) {
        Some((cell, _)) => cell.unconstructed,
        None => false,
    }
}

/// The operands with another one on top.
fn push(cells: &mut Vec<Cell>, chain: Chain, value: VType) -> Result<Chain, Memory>
    requires { HasChain cells.old.items chain }
    ensures begins { Begins cells.old.items cells.new.items }
    ensures pushed { IfOk result (λ pushed. IsChain cells.new.items pushed (value ∷ chain_of cells.old.items chain)) }
{
    if cells.len() >= MOST_ENTRIES {
        return Err(AllocError);
    }
    let Some(height) = chain.height.checked_add(1) else {
        return Err(AllocError);
    };
    let unconstructed = is_unconstructed(value) | mark_of(cells, chain);
    let top = cells.len() as u32;
    cells.push(Cell {
        value,
        below: chain.top,
        unconstructed,
    })?;
    Ok(Chain { height, top })
}

/// The operands with others on top, the top first.
pub(crate) fn push_all(
    cells: &mut Vec<Cell>,
    chain: Chain,
    values: &[VType],
) -> Result<Chain, Memory>
    requires { HasChain cells.old.items chain }
    ensures begins { Begins cells.old.items cells.new.items }
    ensures pushed { IfOk result (λ pushed. IsChain cells.new.items pushed (values.now ++ chain_of cells.old.items chain)) }
{
    let mut pushed = chain;
    let mut left = values.len();
    while left > 0 {
        left -= 1;
        pushed = match push(cells, pushed, values[left]) {
            Ok(more) => more,
            Err(why) => return Err(why),
        };
    }
    Ok(pushed)
}

/// One operand, an object of a class.
pub(crate) fn push_class(cells: &mut Vec<Cell>, class: u16) -> Result<Chain, Memory>
    ensures begins { Begins cells.old.items cells.new.items }
    ensures pushed { IfOk result (λ pushed. IsChain cells.new.items pushed (known.Ref (class_type class) ∷ [])) }
{
    let object = VType::Ref(TypeRef {
        dims: 0,
        base: TypeBase::Class(class),
    });
    push(cells, Chain { height: 0, top: 0 }, object)
}

/// Puts the other type in the place of each object.
fn rename_all(values: &mut [VType], from: VType, to: VType)
    ensures { values.new ≡ map (renamed_one from to) values.old }
{
    for value in values.iter_mut() {
        *value = renamed(from, to, *value);
    }
}

/// The operands with the other type in the place of an object. Those below the lowest one that is the object stay the
/// same entries.
fn rename_operands(
    alloc: Global,
    cells: &mut Vec<Cell>,
    chain: Chain,
    from: VType,
    to: VType,
) -> Result<Chain, Memory>
    requires { HasChain cells.old.items chain }
    ensures begins { Begins cells.old.items cells.new.items }
    ensures renamed { IfOk result (λ named. IsChain cells.new.items named (map (renamed_one from to) (chain_of cells.old.items chain))) }
{
    let count = count_to_object(cells, chain, from);
    if count == 0 {
        return Ok(chain);
    }
    let rest = below(cells, chain, count);
    let mut values = top_values(alloc, cells, chain, count)?;
    rename_all(&mut values, from, to);
    push_all(cells, rest, &values)
}

/// The operands after a change.
pub(crate) fn changed_operands(
    alloc: Global,
    cells: &mut Vec<Cell>,
    chain: Chain,
    change: &Change,
) -> Result<Chain, Memory>
    requires has { HasChain cells.old.items chain }
    requires pops { change.now.pops ≤ chain.height }
    ensures begins { Begins cells.old.items cells.new.items }
    ensures changed { IfOk result (λ after. IsChain cells.new.items after (change.now.pushes ++ renamed_list change.now.renames (drop change.now.pops (chain_of cells.old.items chain)))) }
{
    let rest = below(cells, chain, change.pops);
    let rest = match change.renames {
        Some((from, to)) => rename_operands(alloc, cells, rest, from, to)?,
        None => rest,
    };
    push_all(cells, rest, change.pushes.as_slice())
}
