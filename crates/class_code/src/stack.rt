//! Opcodes 87 to 95.

ghost use Rattle.std.specs.Prelude.{◌≡◌};
ghost use Rattle.class_code.specs.Table.{stack_form};

use crate::opcode::{DUP, DUP_X1, DUP_X2, DUP2, DUP2_X1, DUP2_X2, POP, POP2};
use insn_form::StackForm;

/// pop to swap, 87 to 95.
#[tactic(auto, unfolding(crate::specs::Table::stack_form))]
pub(crate) fn stack_form(opcode: u8) -> StackForm
    ensures { result ≡ stack_form opcode }
{
    match opcode {
        POP => StackForm::Pop,
        POP2 => StackForm::Pop2,
        DUP => StackForm::Dup,
        DUP_X1 => StackForm::DupX1,
        DUP_X2 => StackForm::DupX2,
        DUP2 => StackForm::Dup2,
        DUP2_X1 => StackForm::Dup2X1,
        DUP2_X2 => StackForm::Dup2X2,
        _ => StackForm::Swap,
    }
}
