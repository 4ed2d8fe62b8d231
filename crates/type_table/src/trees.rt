//! Locals as trees: a leaf for each, and branches over two halves, all of one depth. Trees share their branches.

ghost use Rattle.std.specs.Prelude.{◌≡◌, ◌≤◌, ◌<◌, ◌+◌, ◌-◌, ◌^◌, ◌++◌, ◌∷◌, [], Some, map, take, length, replicate, slice_get, slice_set, IfOk};
ghost use Rattle.body_form.specs.declared.types.VType.TheVariants as known;
ghost use Rattle.jvm_model.specs.TypesRules.{renamed as renamed_list, renamed_one, stored};
ghost use Rattle.type_table.specs.Frames.{IsMarked};
ghost use Rattle.type_table.specs.Trees.{tree_of, HasTree, TreesGrow, IsBranch, IsNode, IsTree, IsPartly};

use crate::change::Change;
use crate::objects::{is_same, is_same_object, is_unconstructed};
use crate::store::{Branch, MOST_ENTRIES, Memory};
use body_form::VType;
use std::alloc::{AllocError, Global};

/// The leaves and the branches of trees. A tree is the index of its root, a leaf where its depth is 0.
#[derive(Debug, Drop)]
pub(crate) struct Trees {
    pub(crate) leaves: Vec<VType>,
    pub(crate) branches: Vec<Branch>,
}

/// What is at the root of a tree.
#[derive(Clone, Copy, Debug)]
pub(crate) enum Node {
    Leaf(VType),
    Fork(Branch),
}

// ---- reading

/// What is at the root of a tree.
pub(crate) fn node_at(trees: &Trees, depth: u32, root: u32) -> Node
    requires { HasTree trees.now depth root }
    ensures { IsNode trees.now depth root result }
{
    if depth == 0 {
        Node::Leaf(trees.leaves[root as usize])
    } else {
        Node::Fork(trees.branches[root as usize])
    }
}

/// How many locals a tree has.
pub(crate) fn width(depth: u32) -> usize
    requires { depth ≤ 16 }
    ensures { result ≡ 2 ^ depth }
{
    1 << depth
}

/// The local at an index.
pub(crate) fn local_at(trees: &Trees, depth: u32, root: u32, index: usize) -> VType
    requires has { HasTree trees.now depth root }
    requires small { depth ≤ 16 }
    requires within { index < 2 ^ depth }
    ensures { slice_get (tree_of trees.now depth root) index ≡ Some result }
{
    match node_at(trees, depth, root) {
        Node::Leaf(value) => value,
        Node::Fork(branch) => {
            let half = width(depth - 1);
            if index < half {
                local_at(trees, depth - 1, branch.left, index)
            } else {
                local_at(trees, depth - 1, branch.right, index - half)
            }
        }
    }
}

/// The first so many locals of a tree.
pub(crate) fn first_locals(
    alloc: Global,
    trees: &Trees,
    depth: u32,
    root: u32,
    count: usize,
) -> Result<Vec<VType>, Memory>
    requires has { HasTree trees.now depth root }
    requires small { depth ≤ 16 }
    requires count { count ≤ 2 ^ depth }
    ensures { IfOk result (λ values. values.items ≡ take count (tree_of trees.now depth root)) }
{
    let mut values = Vec::new(alloc);
    for index in 0..count {
        values.push(local_at(trees, depth, root, index))?;
    }
    Ok(values)
}

/// A mark for the locals of a tree.
fn mark_of(trees: &Trees, depth: u32, root: u32) -> bool
    requires { HasTree trees.now depth root }
    ensures { IsMarked result (tree_of trees.now depth root) }
{
    match node_at(trees, depth, root) {
        Node::Leaf(value) => is_unconstructed(value),
        Node::Fork(branch) => branch.unconstructed,
    }
}

// ---- making

/// A tree of depth 0.
pub(crate) fn leaf(trees: &mut Trees, value: VType) -> Result<u32, Memory>
    ensures grow { TreesGrow trees.old trees.new }
    ensures leaf { IfOk result (λ root. IsTree trees.new 0 root (value ∷ [])) }
{
    if trees.leaves.len() >= MOST_ENTRIES {
        return Err(AllocError);
    }
    let root = trees.leaves.len() as u32;
    trees.leaves.push(value)?;
    Ok(root)
}

/// The tree of a depth over two trees of one less.
pub(crate) fn fork(trees: &mut Trees, depth: u32, left: u32, right: u32) -> Result<u32, Memory>
    requires deep { 0 < depth }
    requires left { HasTree trees.old (depth - 1) left }
    requires right { HasTree trees.old (depth - 1) right }
    ensures grow { TreesGrow trees.old trees.new }
    ensures fork { IfOk result (λ root. IsTree trees.new depth root (tree_of trees.old (depth - 1) left ++ tree_of trees.old (depth - 1) right)) }
{
    if trees.branches.len() >= MOST_ENTRIES {
        return Err(AllocError);
    }
    let unconstructed = mark_of(trees, depth - 1, left) | mark_of(trees, depth - 1, right);
    let root = trees.branches.len() as u32;
    trees.branches.push(Branch {
        left,
        right,
        unconstructed,
    })?;
    Ok(root)
}

/// A tree of a depth in whose locals nothing is known.
fn bare(trees: &mut Trees, depth: u32) -> Result<u32, Memory>
    ensures grow { TreesGrow trees.old trees.new }
    ensures bare { IfOk result (λ root. IsTree trees.new depth root (replicate (2 ^ depth) known.Top)) }
{
    let mut root = match leaf(trees, VType::Top) {
        Ok(root) => root,
        Err(why) => return Err(why),
    };
    for below in 0..depth {
        root = match fork(trees, below + 1, root, root) {
            Ok(root) => root,
            Err(why) => return Err(why),
        };
    }
    Ok(root)
}

/// A tree of a depth whose first locals are these, and in whose others nothing is known.
pub(crate) fn filled(trees: &mut Trees, depth: u32, values: &[VType]) -> Result<u32, Memory>
    requires small { depth ≤ 16 }
    requires within { length values.now ≤ 2 ^ depth }
    ensures grow { TreesGrow trees.old trees.new }
    ensures filled { IfOk result (λ root. IsTree trees.new depth root (values.now ++ replicate (2 ^ depth - length values.now) known.Top)) }
{
    if values.is_empty() {
        return bare(trees, depth);
    }
    if depth == 0 {
        return leaf(trees, values[0]);
    }
    let (first, rest) = values.split_at(values.len().min(width(depth - 1)));
    let left = match filled(trees, depth - 1, first) {
        Ok(left) => left,
        Err(why) => return Err(why),
    };
    let right = match filled(trees, depth - 1, rest) {
        Ok(right) => right,
        Err(why) => return Err(why),
    };
    fork(trees, depth, left, right)
}

/// The tree over two halves: the tree itself where they are its own.
fn fork_again(
    trees: &mut Trees,
    depth: u32,
    root: u32,
    branch: Branch,
    left: u32,
    right: u32,
) -> Result<u32, Memory>
    requires branch { IsBranch trees.old depth root branch }
    requires has { HasTree trees.old depth root }
    requires left { HasTree trees.old (depth - 1) left }
    requires right { HasTree trees.old (depth - 1) right }
    ensures grow { TreesGrow trees.old trees.new }
    ensures fork { IfOk result (λ after. IsTree trees.new depth after (tree_of trees.old (depth - 1) left ++ tree_of trees.old (depth - 1) right)) }
{
    if left == branch.left && right == branch.right {
        return Ok(root);
    }
    fork(trees, depth, left, right)
}

/// The tree with a local set. Where the local has the type already it is the tree itself.
fn set_local(
    trees: &mut Trees,
    depth: u32,
    root: u32,
    index: usize,
    value: VType,
) -> Result<u32, Memory>
    requires has { HasTree trees.old depth root }
    requires small { depth ≤ 16 }
    requires within { index < 2 ^ depth }
    ensures grow { TreesGrow trees.old trees.new }
    ensures set { IfOk result (λ after. IsTree trees.new depth after (slice_set (tree_of trees.old depth root) index value)) }
{
    match node_at(trees, depth, root) {
        Node::Leaf(held) => {
            if is_same(held, value) {
                Ok(root)
            } else {
                leaf(trees, value)
            }
        }
        Node::Fork(branch) => {
            let half = width(depth - 1);
            if index < half {
                let left = match set_local(trees, depth - 1, branch.left, index, value) {
                    Ok(left) => left,
                    Err(why) => return Err(why),
                };
                fork_again(trees, depth, root, branch, left, branch.right)
            } else {
                let right = match set_local(trees, depth - 1, branch.right, index - half, value) {
                    Ok(right) => right,
                    Err(why) => return Err(why),
                };
                fork_again(trees, depth, root, branch, branch.left, right)
            }
        }
    }
}

/// The tree with the other type in the place of an object. Branches without the object stay the same entries.
fn rename_locals(
    trees: &mut Trees,
    depth: u32,
    root: u32,
    from: VType,
    to: VType,
) -> Result<u32, Memory>
    requires { HasTree trees.old depth root }
    ensures grow { TreesGrow trees.old trees.new }
    ensures named { IfOk result (λ after. IsTree trees.new depth after (map (renamed_one from to) (tree_of trees.old depth root))) }
{
    if !mark_of(trees, depth, root) {
        return Ok(root);
    }
    match node_at(trees, depth, root) {
        Node::Leaf(value) => {
            if is_same_object(from, value) {
                leaf(trees, to)
            } else {
                Ok(root)
            }
        }
        Node::Fork(branch) => {
            let left = match rename_locals(trees, depth - 1, branch.left, from, to) {
                Ok(left) => left,
                Err(why) => return Err(why),
            };
            let right = match rename_locals(trees, depth - 1, branch.right, from, to) {
                Ok(right) => right,
                Err(why) => return Err(why),
            };
            fork_again(trees, depth, root, branch, left, right)
        }
    }
}

/// The tree with the other type in the place of an object, if one is named.
fn renamed_locals(
    trees: &mut Trees,
    depth: u32,
    root: u32,
    renames: Option<(VType, VType)>,
) -> Result<u32, Memory>
    requires { HasTree trees.old depth root }
    ensures grow { TreesGrow trees.old trees.new }
    ensures named { IfOk result (λ after. IsTree trees.new depth after (renamed_list renames (tree_of trees.old depth root))) }
{
    match renames {
        Some((from, to)) => rename_locals(trees, depth, root, from, to),
        None => Ok(root),
    }
}

/// The tree with a local set, if one is named that is among the first so many.
fn stored_locals(
    trees: &mut Trees,
    depth: u32,
    count: usize,
    root: u32,
    stores: Option<(u16, VType)>,
) -> Result<u32, Memory>
    requires has { HasTree trees.old depth root }
    requires small { depth ≤ 16 }
    requires count { count ≤ 2 ^ depth }
    ensures grow { TreesGrow trees.old trees.new }
    ensures stored { IfOk result (λ after. IsPartly trees.new depth after count (stored stores (take count (tree_of trees.old depth root)))) }
{
    match stores {
        Some((index, value)) if usize::from(index) < count => {
            set_local(trees, depth, root, usize::from(index), value)
        }
        _ => Ok(root),
    }
}

/// The locals after a change, of which there are so many.
pub(crate) fn changed_locals(
    trees: &mut Trees,
    depth: u32,
    count: usize,
    root: u32,
    change: &Change,
) -> Result<u32, Memory>
    requires has { HasTree trees.old depth root }
    requires small { depth ≤ 16 }
    requires count { count ≤ 2 ^ depth }
    ensures grow { TreesGrow trees.old trees.new }
    ensures changed { IfOk result (λ after. IsPartly trees.new depth after count (stored change.now.stores (renamed_list change.now.renames (take count (tree_of trees.old depth root))))) }
{
    let named = match renamed_locals(trees, depth, root, change.renames) {
        Ok(named) => named,
        Err(why) => return Err(why),
    };
    stored_locals(trees, depth, count, named, change.stores)
}
