//! The instruction of a first byte where one is known to be: the frequent ones without tests.

ghost use Rattle.std.specs.Prelude.{◌≡◌, Some, IsSome, option_map};
ghost use Rattle.image_instr.specs.Reading.{insn_in, load_in, store_in, inc_in, u2_in, i1_in, i2_in, i4_in};
ghost use Rattle.image_instr.specs.declared.insn.MInsn.TheVariants.{Const2, Small2, Mid2, Bin, Jz, JCmp, Goto};

use crate::group::insn;
use crate::insn::{Condition, Kind, MInsn, Operation, Width};
use crate::opcode::*;
use crate::operand::{known_index, known_u2};
use crate::switch::known_switch;
use byteorder::{BigEndian, ByteOrder};

/// CONST2 that is there.
#[inline(always)]
fn known_const(operands: &[u8]) -> (MInsn, usize)
    requires { IsSome (i4_in operands.now) }
    ensures { option_map (λ value. (Const2 value, 5)) (i4_in operands.now) ≡ Some result }
{
    let value = BigEndian::read_u32(operands).cast_signed();
    (MInsn::Const2 { value }, 5)
}

/// SMALL2 that is there.
#[inline(always)]
fn known_small(operands: &[u8]) -> (MInsn, usize)
    requires { IsSome (i1_in operands.now) }
    ensures { option_map (λ value. (Small2 value, 2)) (i1_in operands.now) ≡ Some result }
{
    let value = operands[0].cast_signed();
    (MInsn::Small2 { value }, 2)
}

/// MID2 that is there.
#[inline(always)]
fn known_mid(operands: &[u8]) -> (MInsn, usize)
    requires { IsSome (i2_in operands.now) }
    ensures { option_map (λ value. (Mid2 value, 3)) (i2_in operands.now) ≡ Some result }
{
    let value = BigEndian::read_u16(operands).cast_signed();
    (MInsn::Mid2 { value }, 3)
}

#[inline(always)]
fn known_load(kind: Kind, operands: &[u8]) -> (MInsn, usize)
    requires { IsSome (load_in kind operands.now) }
    ensures { load_in kind operands.now ≡ Some result }
{
    let (local, size) = known_index(operands);
    (MInsn::Load { kind, local }, size)
}

#[inline(always)]
fn known_store(kind: Kind, operands: &[u8]) -> (MInsn, usize)
    requires { IsSome (store_in kind operands.now) }
    ensures { store_in kind operands.now ≡ Some result }
{
    let (local, size) = known_index(operands);
    (MInsn::Store { kind, local }, size)
}

#[inline(always)]
fn known_inc(width: Width, operands: &[u8]) -> (MInsn, usize)
    requires { IsSome (inc_in width operands.now) }
    ensures { inc_in width operands.now ≡ Some result }
{
    let (local, size) = known_index(operands);
    let amount = BigEndian::read_u16(&operands[size - 1..]).cast_signed();
    let insn = MInsn::Inc {
        width,
        local,
        amount,
    };
    (insn, size + 2)
}

#[inline(always)]
fn known_bin(width: Width, operation: Operation) -> MInsn
    ensures { result ≡ Bin width operation }
{
    MInsn::Bin { width, operation }
}

#[inline(always)]
fn known_jz(width: Width, condition: Condition, operands: &[u8]) -> (MInsn, usize)
    requires { IsSome (u2_in operands.now) }
    ensures { option_map (λ target. (Jz width condition target, 3)) (u2_in operands.now) ≡ Some result }
{
    let target = known_u2(operands);
    let insn = MInsn::Jz {
        width,
        condition,
        target,
    };
    (insn, 3)
}

#[inline(always)]
fn known_jcmp(width: Width, condition: Condition, operands: &[u8]) -> (MInsn, usize)
    requires { IsSome (u2_in operands.now) }
    ensures { option_map (λ target. (JCmp width condition target, 3)) (u2_in operands.now) ≡ Some result }
{
    let target = known_u2(operands);
    let insn = MInsn::JCmp {
        width,
        condition,
        target,
    };
    (insn, 3)
}

#[inline(always)]
fn known_goto(operands: &[u8]) -> (MInsn, usize)
    requires { IsSome (u2_in operands.now) }
    ensures { option_map (λ target. (Goto target, 3)) (u2_in operands.now) ≡ Some result }
{
    let target = known_u2(operands);
    (MInsn::Goto { target }, 3)
}

/// An instruction that is known to be there and is none of the frequent ones.
#[inline(never)]
fn known_other(opcode: u8, operands: &[u8]) -> (MInsn, usize)
    requires { IsSome (insn_in opcode operands.now) }
    ensures { insn_in opcode operands.now ≡ Some result }
{
    match insn(opcode, operands) {
        Some(found) => found,
        None => unreachable!(),
    }
}

/// An instruction that is known to be there. The frequent ones are read here, so that a caller's match on
/// the answer folds; the keys of a switch are not tested again.
#[inline(always)]
#[tactic(auto, unfolding(crate::specs::Reading::insn_in, crate::specs::Reading::constant_in, crate::specs::Reading::local_in, crate::specs::Reading::number_in, crate::specs::Reading::jump_in))]
pub(crate) fn known(opcode: u8, operands: &[u8]) -> (MInsn, usize)
    requires { IsSome (insn_in opcode operands.now) }
    ensures { insn_in opcode operands.now ≡ Some result }
{
    match opcode {
        CONST2 => known_const(operands),
        SMALL2 => known_small(operands),
        MID2 => known_mid(operands),
        LOAD2 => known_load(Kind::Two, operands),
        STORE2 => known_store(Kind::Two, operands),
        INC2 => known_inc(Width::Two, operands),
        BIN2_ADD => (known_bin(Width::Two, Operation::Add), 1),
        BIN2_SUB => (known_bin(Width::Two, Operation::Sub), 1),
        BIN2_MUL => (known_bin(Width::Two, Operation::Mul), 1),
        BIN2_DIV => (known_bin(Width::Two, Operation::Div), 1),
        BIN2_REM => (known_bin(Width::Two, Operation::Rem), 1),
        BIN2_SHL => (known_bin(Width::Two, Operation::Shl), 1),
        BIN2_SHR => (known_bin(Width::Two, Operation::Shr), 1),
        BIN2_USHR => (known_bin(Width::Two, Operation::Ushr), 1),
        BIN2_AND => (known_bin(Width::Two, Operation::And), 1),
        BIN2_OR => (known_bin(Width::Two, Operation::Or), 1),
        BIN2_XOR => (known_bin(Width::Two, Operation::Xor), 1),
        JZ2_EQ => known_jz(Width::Two, Condition::Eq, operands),
        JZ2_NE => known_jz(Width::Two, Condition::Ne, operands),
        JZ2_LT => known_jz(Width::Two, Condition::Lt, operands),
        JZ2_GE => known_jz(Width::Two, Condition::Ge, operands),
        JZ2_GT => known_jz(Width::Two, Condition::Gt, operands),
        JZ2_LE => known_jz(Width::Two, Condition::Le, operands),
        JCMP2_EQ => known_jcmp(Width::Two, Condition::Eq, operands),
        JCMP2_NE => known_jcmp(Width::Two, Condition::Ne, operands),
        JCMP2_LT => known_jcmp(Width::Two, Condition::Lt, operands),
        JCMP2_GE => known_jcmp(Width::Two, Condition::Ge, operands),
        JCMP2_GT => known_jcmp(Width::Two, Condition::Gt, operands),
        JCMP2_LE => known_jcmp(Width::Two, Condition::Le, operands),
        GOTO => known_goto(operands),
        SWITCH1 => known_switch(Width::One, operands),
        SWITCH2 => known_switch(Width::Two, operands),
        _ => known_other(opcode, operands),
    }
}
