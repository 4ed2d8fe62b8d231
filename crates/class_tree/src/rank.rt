//! How many classes are above each class.

ghost use Rattle.std.specs.Prelude.{◌≡◌, ◌≤◌, ◌+◌, ◌<◌, ℕ, None, map, length, get_or, IfOk};
ghost use Rattle.class_file.specs.declared.record.ClassFile.{ClassFile as Record};
ghost use Rattle.class_tree.specs.Set.{is_directly_below};
ghost use Rattle.class_tree.specs.Closure.{IsClosure};
ghost use Rattle.class_tree.specs.Circles.{Circles};
ghost use Rattle.class_tree.specs.Ranks.{rank_in, AreRanks};

use crate::circles::leads;
use crate::names::Names;
use class_file::ClassFile;
use library::FIRST_OWN;
use std::alloc::{AllocError, Global};

/// To how many of so many classes a class leads.
fn rank_of(above: &[Vec<bool>], count: usize, class: usize) -> usize
    ensures { result ≡ rank_in (map (λ v. v.items) above.now) count class }
{
    let mut rank = 0;
    for to in 0..count {
        if leads(above, class, to) {
            rank += 1;
        }
    }
    rank
}

/// How many classes are above each of so many classes.
fn count_above(alloc: Global, above: &[Vec<bool>], count: usize) -> Result<Vec<usize>, AllocError>
    ensures many { IfOk result (λ ranks. length ranks.items ≡ count) }
    ensures each { IfOk result (λ ranks. (class : ℕ) → class < count → get_or ranks.items class 0 ≡ rank_in (map (λ v. v.items) above.now) count class) }
{
    let mut ranks = Vec::new(alloc);
    for class in 0..count {
        ranks.push(rank_of(above, count, class))?;
    }
    Ok(ranks)
}

/// A rank for each class, which falls on the way up.
pub(crate) fn ranks_of(
    alloc: Global,
    names: &Names,
    files: &[ClassFile],
    above: &[Vec<bool>],
) -> Result<Vec<usize>, AllocError>
    requires names { length names.now ≤ 512 }
    requires same { length files.now ≡ length names.now }
    requires closure { IsClosure (is_directly_below names.now files.now) (32 + length names.now) (map (λ v. v.items) above.now) }
    requires no_circles { Circles names.now files.now None }
    ensures many { IfOk result (λ ranks. length ranks.items ≡ 32 + length names.now) }
    ensures ranks { IfOk result (λ ranks. AreRanks names.now files.now (λ class. get_or ranks.items class 0)) }
{
    let ranks = count_above(alloc, above, usize::from(FIRST_OWN) + names.count())?;
    Ok(ranks)
}
