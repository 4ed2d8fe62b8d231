//! The search: from pc 0, by a list of those instructions that are still to be visited.

ghost use Rattle.std.specs.Prelude.{◌≡◌, ◌<◌, ◌*◌, ℕ, List, true, length, map, IfOk, OnOk};
ghost use Rattle.code_reach.specs.declared.row.Row.{Row};
ghost use Rattle.code_reach.specs.Reached.{RisesFrom, TellReached, code_ways};
ghost use Rattle.code_reach.specs.Visits.{IsIn, Reaches, Follows, pcs_of, index_of as index_of_pc};
ghost use Rattle.code_reach.specs.Tree.{IsTreeOf};

use crate::flow::Flow;
use crate::index::index_of;
use crate::row::Row;
use crate::tree::Tree;
use crate::visits::Visits;
use std::alloc::{AllocError, Global};

/// Notes that the instruction at the next index is reached, where the one before it goes on.
fn reach_next<F: Flow>(insn: &F, next: usize, visits: &mut Visits) -> Result<(), AllocError>
    ensures { OnOk result (Reaches (λ other. ((F.way insn.now).goes_on ≡ true) × (other ≡ next)) visits.old visits.new) }
{
    if insn.goes_on() {
        return visits.reach(next);
    }
    Ok(())
}

/// Notes that the targets of an instruction are reached.
fn reach_targets<F: Flow>(
    code: &[(u32, F)],
    insn: &F,
    visits: &mut Visits,
) -> Result<(), AllocError>
    requires { RisesFrom 0 code.now }
    ensures { OnOk result (Reaches (IsIn (map (index_of_pc (pcs_of code.now)) (F.way insn.now).targets)) visits.old visits.new) }
{
    for k in 0..insn.target_count() {
        visits.reach(index_of(code, insn.target(k)))?;
    }
    Ok(())
}

/// Notes that all is reached to which the instruction at an index leads.
fn visit<F: Flow>(
    code: &[(u32, F)],
    index: usize,
    tree: &mut Tree,
    visits: &mut Visits,
) -> Result<(), AllocError>
    requires rise { RisesFrom 0 code.now }
    requires within { index < length code.now }
    requires size { length tree.old.nodes.items ≡ 2 * tree.old.leaves }
    requires marks { length visits.old.marks.items ≡ length code.now }
    ensures { OnOk result ((rows : List Row) → IsTreeOf (pcs_of code.now) rows tree.old visits.old → Reaches (Follows (code_ways F.way rows code.now) index) visits.old visits.new × IsTreeOf (pcs_of code.now) rows tree.new visits.new) }
{
    let (pc, insn) = &code[index];
    reach_next(insn, index + 1, visits)?;
    reach_targets(code, insn, visits)?;
    tree.enter(*pc, visits)
}

/// One flag for each instruction, in order: true exactly where its pc is reached from 0. The code is pcs that
/// rise, each with its instruction; a target where no instruction is leads nowhere. Memory is taken by the
/// length of the code and by the greatest end of a row.
pub fn reached<F: Flow>(
    alloc: Global,
    code: &[(u32, F)],
    rows: &[Row],
) -> Result<Vec<bool>, AllocError>
    requires { RisesFrom 0 code.now }
    ensures { IfOk result (λ flags. TellReached (code_ways F.way rows.now code.now) flags.items) }
{
    let mut tree = Tree::new(alloc, code, rows)?;
    let mut visits = Visits::none(alloc, code.len())?;
    visits.reach(index_of(code, 0))?;
    while let Some(index) = visits.todo.pop() {
        visit(code, index, &mut tree, &mut visits)?;
    }
    Ok(visits.marks)
}
