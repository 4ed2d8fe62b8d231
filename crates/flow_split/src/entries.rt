//! The whole numbers of one cell, looked up in their list.

ghost use Rattle.std.specs.Prelude.{◌≡◌, true};
ghost use Rattle.std.specs.List.{AllPairs};
ghost use Rattle.jvm_model.specs.WidthsShapes.{is_narrow};
ghost use Rattle.flow_split.specs.Splits.{comes_before};

use jvm_model::Entry;

/// Whether the list, which is in order, has the entry of a local, or of an operand counted from the bottom, before the
/// instruction at a pc.
pub fn has_entry(narrow: &[Entry], pc: u32, operand: bool, place: usize) -> bool
    requires { AllPairs (λ first second. comes_before first second ≡ true) narrow.now }
    ensures { result ≡ is_narrow narrow.now pc operand place }
{
    narrow
        .binary_search_by_key(&(pc, operand, place), |entry| {
            (entry.pc, entry.operand, usize::from(entry.place))
        })
        .is_ok()
}
