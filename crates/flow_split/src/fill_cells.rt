//! The greatest number of operand cells where parameters are extended.

ghost use Rattle.std.specs.Prelude.{◌≡◌, ◌≤◌, length};
ghost use Rattle.std.specs.List.{flat_map};
ghost use Rattle.image_form.specs.Library.{signature};
ghost use Rattle.body_form.specs.declared.body.Body.{Body as MethodBody};
ghost use Rattle.jvm_model.specs.WidthsShapes.{Widths};
ghost use Rattle.jvm_model.specs.WidthsSlots.{fills_of};
ghost use Rattle.jvm_model.specs.WidthsFrame.{most_operands, fill_insns};
ghost use Rattle.flow_split.specs.Shares.{cell_shares_of};

use crate::shares::{Share, counts_of};

/// The greatest number of operand cells at entry, where locals take these cells: two where a parameter is extended.
#[tactic(auto, using(crate::proofs::Filling::none_extended, crate::proofs::Filling::some_extended))]
pub(crate) fn fill_cells(cells: &[Share]) -> u64
    requires { length cells.now ≤ 65535 }
    ensures { (body : MethodBody) (widths : Widths) → cells.now ≡ cell_shares_of body widths → result ≡ most_operands (signature 0 0 0) 0 (flat_map fill_insns (fills_of body widths)) }
{
    if counts_of(cells).extended == 0 { 0 } else { 2 }
}
