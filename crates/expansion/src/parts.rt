//! The parts of machine instructions that stand for parts of instructions.

ghost use Rattle.std.specs.Prelude.{◌≡◌, ◌<◌, ◌^◌, length};
ghost use Rattle.jvm_model.specs.ImageExpansion.{operation_of as operation_meant, condition_of as condition_meant, test_of as test_meant, low_key as low_key_of, switch_insn as switch_meant};

use cell_num::{BinOp, Cond};
use image_instr::{Condition, MInsn, Operation, RefTest, Width};
use insn_form::{RefCond, SwitchForm, SwitchRow};

pub(crate) fn operation_of(operation: BinOp) -> Operation
    ensures { result ≡ operation_meant operation }
{
    match operation {
        BinOp::Add => Operation::Add,
        BinOp::Sub => Operation::Sub,
        BinOp::Mul => Operation::Mul,
        BinOp::Div => Operation::Div,
        BinOp::Rem => Operation::Rem,
        BinOp::Shl => Operation::Shl,
        BinOp::Shr => Operation::Shr,
        BinOp::Ushr => Operation::Ushr,
        BinOp::And => Operation::And,
        BinOp::Or => Operation::Or,
        BinOp::Xor => Operation::Xor,
    }
}

pub(crate) fn condition_of(cond: Cond) -> Condition
    ensures { result ≡ condition_meant cond }
{
    match cond {
        Cond::Eq => Condition::Eq,
        Cond::Ne => Condition::Ne,
        Cond::Lt => Condition::Lt,
        Cond::Ge => Condition::Ge,
        Cond::Gt => Condition::Gt,
        Cond::Le => Condition::Le,
    }
}

pub(crate) fn test_of(cond: RefCond) -> RefTest
    ensures { result ≡ test_meant cond }
{
    match cond {
        RefCond::Eq => RefTest::Equal,
        RefCond::Ne => RefTest::NotEqual,
        RefCond::Null => RefTest::Null,
        RefCond::NonNull => RefTest::NonNull,
    }
}

/// The key of the first row.
fn low_key(rows: &[SwitchRow]) -> i32
    ensures { result ≡ low_key_of rows.now }
{
    match rows.first() {
        Some(row) => row.key,
        None => 0,
    }
}

/// A switch with so many rows and the offset of its default target.
pub(crate) fn switch_insn(form: SwitchForm, width: Width, default: u16, rows: &[SwitchRow]) -> MInsn
    requires { length rows.now < 2 ^ 16 }
    ensures { result ≡ switch_meant form width default rows.now }
{
    match form {
        SwitchForm::Lookup => MInsn::Switch {
            width,
            default,
            count: rows.len() as u16,
        },
        SwitchForm::Table => MInsn::Table {
            width,
            default,
            low: low_key(rows),
            count: rows.len() as u16,
        },
    }
}
