//! Whether a class is above itself.

ghost use Rattle.std.specs.Prelude.{◌≡◌, ◌≤◌, ◌+◌, None, Some, map, length, IfErr, OnOk};
ghost use Rattle.class_tree.specs.Set.{is_directly_below};
ghost use Rattle.class_tree.specs.Closure.{at, IsClosure};
ghost use Rattle.class_tree.specs.Circles.{Circles};

use crate::names::Names;
use crate::refusal::TreeRefusal;
use class_file::ClassFile;
use library::FIRST_OWN;

/// Whether the table says that one number leads to another.
#[tactic(auto, using(crate::proofs::tables::Rows::row_is))]
pub(crate) fn leads(above: &[Vec<bool>], from: usize, to: usize) -> bool
    ensures { result ≡ at (map (λ v. v.items) above.now) from to }
{
    match above.get(from) {
        Some(row) => match row.get(to) {
            Some(flag) => *flag,
            None => false,
        },
        None => false,
    }
}

/// Tests whether the class of a file is above itself, by the table of what is above what.
pub(crate) fn test_circles(
    above: &[Vec<bool>],
    names: &Names,
    files: &[ClassFile],
) -> Result<(), TreeRefusal>
    requires files { length files.now ≤ 512 }
    requires same { length files.now ≡ length names.now }
    requires closure { IsClosure (is_directly_below names.now files.now) (32 + length names.now) (map (λ v. v.items) above.now) }
    ensures passed { OnOk result (Circles names.now files.now None) }
    ensures refused { IfErr result (λ why. Circles names.now files.now (Some why)) }
{
    for file in 0..files.len() {
        let class = usize::from(FIRST_OWN) + file;
        if leads(above, class, class) {
            return Err(TreeRefusal::Circular { file: file as u32 });
        }
    }
    Ok(())
}
