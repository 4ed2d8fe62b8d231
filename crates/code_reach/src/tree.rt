//! The tree of the rows: a binary tree whose leaves are pcs. A handler waits at the nodes whose leaves are
//! together the pcs that its row covers, two a level at most, and a reached pc takes what waits above it.

ghost use Rattle.std.specs.Prelude.{List, ◌*◌, ◌+◌, ◌≡◌, ℕ, suc, true, [], ◌∷◌, ◌++◌, ◌^◌, ◌<◌, ◌≤◌, ◌&&◌, ◌==◌, if◌then◌else◌, length, map, replicate, IfOk, OnOk};
ghost use Rattle.std.specs.List.{All};
ghost use Rattle.std.specs.Int.{IsPowerOfTwo};
ghost use Rattle.code_reach.specs.declared.row.Row.{Row};
ghost use Rattle.code_reach.specs.declared.visits.Visits.{Visits};
ghost use Rattle.code_reach.specs.Reached.{RisesFrom};
ghost use Rattle.code_reach.specs.Visits.{IsIn, Reaches, pcs_of};
ghost use Rattle.code_reach.specs.Tree.{Waits, IsPut, IsTaken, IsHandler, IsTreeOf, at_node};

use crate::index::index_of;
use crate::row::Row;
use crate::visits::Visits;
use crate::waiting::Waiting;
use std::alloc::{AllocError, Global};

/// The nodes, and how many leaves are among them: the leaf of a pc is that number and the pc.
#[derive(Debug, Drop)]
pub(crate) struct Tree {
    nodes: Vec<Waiting>,
    leaves: usize,
}

/// Puts an index at a node, if it is asked for.
fn put_if(asked: bool, nodes: &mut [Waiting], node: usize, index: usize) -> Result<(), AllocError>
    requires { node < length nodes.old }
    ensures { OnOk result ((other : ℕ) → at_node nodes.new other ≡ (if asked && node == other then at_node nodes.old other ++ index ∷ [] else at_node nodes.old other)) }
{
    if asked {
        nodes[node].push(index)?;
    }
    Ok(())
}

/// Puts an index at as few nodes as are together above those of one level from one up to another.
fn put(nodes: &mut [Waiting], from: usize, to: usize, index: usize) -> Result<(), AllocError>
    requires { to ≤ length nodes.old }
    ensures { OnOk result (IsPut from to index nodes.old nodes.new) }
{
    if from >= to {
        return Ok(());
    }
    put_if(from % 2 == 1, nodes, from, index)?;
    put_if(to % 2 == 1, nodes, to - 1, index)?;
    put(nodes, (from + 1) / 2, to / 2, index)
}

/// Reaches all that waits at a node.
fn take(waiting: &mut Waiting, visits: &mut Visits) -> Result<(), AllocError>
    ensures { OnOk result (Reaches (IsIn waiting.old) visits.old visits.new × (waiting.new ≡ [])) }
{
    while let Some(index) = waiting.pop() {
        visits.reach(index)?;
    }
    Ok(())
}

/// Reaches all that waits at a node or above it.
fn take_above(nodes: &mut [Waiting], node: usize, visits: &mut Visits) -> Result<(), AllocError>
    requires { node < length nodes.old }
    ensures reaches { OnOk result ((level : ℕ) → 2 ^ level ≤ node → node < 2 ^ suc level → Reaches (Waits (suc level) nodes.old node) visits.old visits.new) }
    ensures taken { OnOk result (IsTaken nodes.old nodes.new visits.old visits.new) }
{
    take(&mut nodes[node], visits)?;
    if node > 1 {
        return take_above(nodes, node / 2, visits);
    }
    Ok(())
}

/// So many nodes where nothing waits.
fn bare(alloc: Global, count: usize) -> Result<Vec<Waiting>, AllocError>
    ensures { IfOk result (λ nodes. nodes.items ≡ replicate count []) }
{
    let mut nodes = Vec::new(alloc);
    for _ in 0..count {
        nodes.push(Waiting::new(alloc))?;
    }
    Ok(nodes)
}

/// How many leaves the rows need: a power of two that no row's end is above.
fn leaf_count(rows: &[Row]) -> usize
    ensures power { IsPowerOfTwo result }
    ensures enough { All (λ row. row.end ≤ result) rows.now }
    ensures small { result < 2 ^ 33 }
{
    let end = rows.iter().map(|row| row.end).max().unwrap_or(0);
    (end as usize).next_power_of_two()
}

impl Tree {
    /// The tree of rows, to whose handlers nothing has led yet.
    pub(crate) fn new<F>(alloc: Global, code: &[(u32, F)], rows: &[Row]) -> Result<Tree, AllocError>
        requires { RisesFrom 0 code.now }
        ensures { IfOk result (λ tree. (visits : Visits) → IsTreeOf (pcs_of code.now) rows.now tree visits) }
    {
        let leaves = leaf_count(rows);
        let mut nodes = bare(alloc, 2 * leaves)?;
        for row in rows {
            let (start, end) = (row.start as usize, row.end as usize);
            let index = index_of(code, row.target);
            put(&mut nodes, leaves + start, leaves + end, index)?;
        }
        Ok(Tree { nodes, leaves })
    }

    /// Reaches the handlers of the rows that cover a pc.
    pub(crate) fn enter(&mut self, pc: u32, visits: &mut Visits) -> Result<(), AllocError>
        requires { length self.old.nodes.items ≡ 2 * self.old.leaves }
        ensures { OnOk result ((pcs : List ℕ) (rows : List Row) → IsTreeOf pcs rows self.old visits.old → Reaches (IsHandler pcs rows pc) visits.old visits.new × IsTreeOf pcs rows self.new visits.new) }
    {
        let pc = pc as usize;
        if pc < self.leaves {
            return take_above(&mut self.nodes, self.leaves + pc, visits);
        }
        Ok(())
    }
}
