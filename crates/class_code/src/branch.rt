//! Jumps on a condition, opcodes 153 to 166, 198 and 199.

ghost use Rattle.std.specs.Prelude.{◌≡◌};
ghost use Rattle.class_code.specs.Operands.{Gives};
ghost use Rattle.class_code.specs.Table.{condition, ref_condition, jump, branch};

use crate::insn::Insn;
use crate::opcode::{IF_ACMPEQ, IF_ACMPNE, IF_ICMPEQ, IF_ICMPLE, IFEQ, IFLE, IFNULL};
use crate::operand::target_at;
use crate::refusal::Fault;
use cell_num::Cond;
use insn_form::RefCond;

/// The condition that stands so many opcodes after that of equality.
#[tactic(auto, unfolding(crate::specs::Table::condition))]
fn condition(code: u8) -> Cond
    ensures { result ≡ condition code }
{
    match code {
        0 => Cond::Eq,
        1 => Cond::Ne,
        2 => Cond::Lt,
        3 => Cond::Ge,
        4 => Cond::Gt,
        _ => Cond::Le,
    }
}

/// if_acmpeq, if_acmpne, ifnull, ifnonnull.
#[tactic(auto, unfolding(crate::specs::Table::ref_condition))]
fn ref_condition(opcode: u8) -> RefCond
    ensures { result ≡ ref_condition opcode }
{
    match opcode {
        IF_ACMPEQ => RefCond::Eq,
        IF_ACMPNE => RefCond::Ne,
        IFNULL => RefCond::Null,
        _ => RefCond::NonNull,
    }
}

/// The jump of an opcode to a target.
#[tactic(auto, unfolding(crate::specs::Table::jump))]
fn jump(opcode: u8, target: u32) -> Insn
    ensures { result ≡ jump opcode target }
{
    match opcode {
        IFEQ..=IFLE => Insn::If(condition(opcode - IFEQ), target),
        IF_ICMPEQ..=IF_ICMPLE => Insn::IfCmp(condition(opcode - IF_ICMPEQ), target),
        _ => Insn::IfRef(ref_condition(opcode), target),
    }
}

/// Each jump on a condition.
#[tactic(auto, unfolding(crate::specs::Table::branch))]
pub(crate) fn branch(pc: u32, opcode: u8, operands: &[u8]) -> Result<(Insn, &[u8]), Fault>
    ensures { Gives (λ x. (x.0, x.1.now)) result (branch pc opcode operands.now) }
{
    let (target, rest) = target_at(pc, operands)?;
    Ok((jump(opcode, target), rest))
}
