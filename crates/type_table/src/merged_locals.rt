//! The merge of the locals of two frames: where both trees have the same branch, it stays.

ghost use Rattle.std.specs.Prelude.{◌≤◌, ◌<◌, ◌-◌, None, take, unwrap_or, IfOk};
ghost use Rattle.std.specs.List.{AllByRecursion};
ghost use Rattle.class_tree.specs.Tree.{Gathers};
ghost use Rattle.class_tree.specs.Merge.{merge as merge_of};
ghost use Rattle.class_tree.specs.MergeLaws.{IsKnown};
ghost use Rattle.type_table.specs.Trees.{tree_of, HasTree, TreesGrow};
ghost use Rattle.type_table.specs.Merges.{merged_types, IsForkOver, IsMergedLeaf, IsMergedTree};

use crate::objects::is_same;
use crate::store::{Branch, Memory};
use crate::trees::{Node, Trees, fork, leaf, node_at, width};
use body_form::VType;
use class_tree::ClassSet;
use flow_kinds::merge;

/// The merge of two leaves.
fn merged_leaf(
    set: &ClassSet,
    trees: &mut Trees,
    upper: VType,
    lower: VType,
) -> Result<Option<u32>, Memory>
    requires upper { IsKnown set.now upper }
    requires lower { IsKnown set.now lower }
    ensures grow { TreesGrow trees.old trees.new }
    ensures merged { IfOk result (IsMergedLeaf trees.new upper (merge_of set.now upper lower)) }
{
    let value = merge(set, upper, lower);
    if is_same(value, upper) {
        return Ok(None);
    }
    let root = leaf(trees, value)?;
    Ok(Some(root))
}

/// The tree over two halves, where one of them at least is not that of a branch.
fn fork_over(
    trees: &mut Trees,
    depth: u32,
    branch: Branch,
    left: Option<u32>,
    right: Option<u32>,
) -> Result<Option<u32>, Memory>
    requires deep { 0 < depth }
    requires left { HasTree trees.old (depth - 1) (unwrap_or left branch.left) }
    requires right { HasTree trees.old (depth - 1) (unwrap_or right branch.right) }
    ensures grow { TreesGrow trees.old trees.new }
    ensures fork { IfOk result (IsForkOver trees.old trees.new depth branch left right) }
{
    if left.is_none() && right.is_none() {
        return Ok(None);
    }
    let root = fork(
        trees,
        depth,
        left.unwrap_or(branch.left),
        right.unwrap_or(branch.right),
    )?;
    Ok(Some(root))
}

/// The tree of the first so many locals of two trees, merged one by one. `None` where they are those of the upper tree.
pub(crate) fn merged_tree(
    set: &ClassSet,
    trees: &mut Trees,
    depth: u32,
    count: usize,
    upper: u32,
    lower: u32,
) -> Result<Option<u32>, Memory>
    requires gathered { Gathers set.now None }
    requires small { depth ≤ 16 }
    requires upper { HasTree trees.old depth upper }
    requires lower { HasTree trees.old depth lower }
    requires known_upper { AllByRecursion (IsKnown set.now) (take count (tree_of trees.old depth upper)) }
    requires known_lower { AllByRecursion (IsKnown set.now) (take count (tree_of trees.old depth lower)) }
    ensures grow { TreesGrow trees.old trees.new }
    ensures merged { IfOk result (IsMergedTree trees.new depth count (take count (tree_of trees.old depth upper)) (merged_types set.now (take count (tree_of trees.old depth upper)) (take count (tree_of trees.old depth lower)))) }
{
    if upper == lower {
        return Ok(None);
    }
    if count == 0 {
        return Ok(None);
    }
    match (node_at(trees, depth, upper), node_at(trees, depth, lower)) {
        (Node::Leaf(a), Node::Leaf(b)) => merged_leaf(set, trees, a, b),
        (Node::Fork(over), Node::Fork(under)) => {
            let half = width(depth - 1);
            let left = match merged_tree(
                set,
                trees,
                depth - 1,
                count.min(half),
                over.left,
                under.left,
            ) {
                Ok(left) => left,
                Err(why) => return Err(why),
            };
            let right = match merged_tree(
                set,
                trees,
                depth - 1,
                count.saturating_sub(half),
                over.right,
                under.right,
            ) {
                Ok(right) => right,
                Err(why) => return Err(why),
            };
            fork_over(trees, depth, over, left, right)
        }
        _ => Ok(None),
    }
}
