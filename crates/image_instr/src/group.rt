//! The instruction of a first byte and of the bytes after it, group by group.

ghost use Rattle.std.specs.Prelude.{◌≡◌};
ghost use Rattle.image_instr.specs.Reading.{insn_in, constant_in, local_in, stack_in, number_in, jump_in, ret_in, static_in, field_in, array_in, element_in, object_in};

use crate::insn::{Condition, Element, Kind, MInsn, Operation, RefTest, Width};
use crate::opcode::*;
use crate::operand::{i1, i2, i4, u2};
use crate::plain::{
    bin, calli, drop_cell, dupx, get_field, get_static, inc, jcmp, jz, load, load_element, multi,
    new_array, pop, put_field, put_static, rclear, rdupx, rj, rpop, store, store_element, swap,
};
use crate::switch::{switch, table};

/// CONST1 to NULL.
#[inline(always)]
#[tactic(auto, unfolding(crate::specs::Reading::constant_in))]
fn constant(opcode: u8, operands: &[u8]) -> Option<(MInsn, usize)>
    ensures { result ≡ constant_in opcode operands.now }
{
    match opcode {
        CONST1 => i2(operands).map(|value| (MInsn::Const1 { value }, 3)),
        CONST2 => i4(operands).map(|value| (MInsn::Const2 { value }, 5)),
        SMALL1 => i1(operands).map(|value| (MInsn::Small1 { value }, 2)),
        SMALL2 => i1(operands).map(|value| (MInsn::Small2 { value }, 2)),
        MID2 => i2(operands).map(|value| (MInsn::Mid2 { value }, 3)),
        NULL => Some((MInsn::Null, 1)),
        _ => None,
    }
}

/// RLOAD to INC2.
#[inline(always)]
#[tactic(auto, unfolding(crate::specs::Reading::local_in))]
fn local(opcode: u8, operands: &[u8]) -> Option<(MInsn, usize)>
    ensures { result ≡ local_in opcode operands.now }
{
    match opcode {
        RLOAD => load(Kind::Ref, operands),
        RSTORE => store(Kind::Ref, operands),
        RCLEAR => rclear(operands),
        LOAD1 => load(Kind::One, operands),
        LOAD2 => load(Kind::Two, operands),
        STORE1 => store(Kind::One, operands),
        STORE2 => store(Kind::Two, operands),
        INC1 => inc(Width::One, operands),
        INC2 => inc(Width::Two, operands),
        _ => None,
    }
}

/// RDUPX to DROP.
#[inline(always)]
#[tactic(auto, unfolding(crate::specs::Reading::stack_in))]
fn stack(opcode: u8, operands: &[u8]) -> Option<(MInsn, usize)>
    ensures { result ≡ stack_in opcode operands.now }
{
    match opcode {
        RDUPX => rdupx(operands),
        DUPX => dupx(operands),
        RPOP => rpop(operands),
        POP => pop(operands),
        RSWAP => Some((MInsn::RSwap, 1)),
        SWAP => swap(operands),
        DROP => drop_cell(operands),
        _ => None,
    }
}

/// BIN1_ADD to BIT.
#[inline(always)]
#[tactic(auto, unfolding(crate::specs::Reading::number_in))]
fn number(opcode: u8) -> Option<(MInsn, usize)>
    ensures { result ≡ number_in opcode }
{
    match opcode {
        BIN1_ADD => bin(Width::One, Operation::Add),
        BIN1_SUB => bin(Width::One, Operation::Sub),
        BIN1_MUL => bin(Width::One, Operation::Mul),
        BIN1_DIV => bin(Width::One, Operation::Div),
        BIN1_REM => bin(Width::One, Operation::Rem),
        BIN1_SHL => bin(Width::One, Operation::Shl),
        BIN1_SHR => bin(Width::One, Operation::Shr),
        BIN1_USHR => bin(Width::One, Operation::Ushr),
        BIN1_AND => bin(Width::One, Operation::And),
        BIN1_OR => bin(Width::One, Operation::Or),
        BIN1_XOR => bin(Width::One, Operation::Xor),
        NEG1 => Some((MInsn::Neg { width: Width::One }, 1)),
        BIN2_ADD => bin(Width::Two, Operation::Add),
        BIN2_SUB => bin(Width::Two, Operation::Sub),
        BIN2_MUL => bin(Width::Two, Operation::Mul),
        BIN2_DIV => bin(Width::Two, Operation::Div),
        BIN2_REM => bin(Width::Two, Operation::Rem),
        BIN2_SHL => bin(Width::Two, Operation::Shl),
        BIN2_SHR => bin(Width::Two, Operation::Shr),
        BIN2_USHR => bin(Width::Two, Operation::Ushr),
        BIN2_AND => bin(Width::Two, Operation::And),
        BIN2_OR => bin(Width::Two, Operation::Or),
        BIN2_XOR => bin(Width::Two, Operation::Xor),
        NEG2 => Some((MInsn::Neg { width: Width::Two }, 1)),
        SX => Some((MInsn::Sx, 1)),
        ZX => Some((MInsn::Zx, 1)),
        SB => Some((MInsn::Sb, 1)),
        BIT => Some((MInsn::Bit, 1)),
        _ => None,
    }
}

/// JZ1_EQ to TABLE2.
#[inline(always)]
#[tactic(auto, unfolding(crate::specs::Reading::jump_in))]
fn jump(opcode: u8, operands: &[u8]) -> Option<(MInsn, usize)>
    ensures { result ≡ jump_in opcode operands.now }
{
    match opcode {
        JZ1_EQ => jz(Width::One, Condition::Eq, operands),
        JZ1_NE => jz(Width::One, Condition::Ne, operands),
        JZ1_LT => jz(Width::One, Condition::Lt, operands),
        JZ1_GE => jz(Width::One, Condition::Ge, operands),
        JZ1_GT => jz(Width::One, Condition::Gt, operands),
        JZ1_LE => jz(Width::One, Condition::Le, operands),
        JZ2_EQ => jz(Width::Two, Condition::Eq, operands),
        JZ2_NE => jz(Width::Two, Condition::Ne, operands),
        JZ2_LT => jz(Width::Two, Condition::Lt, operands),
        JZ2_GE => jz(Width::Two, Condition::Ge, operands),
        JZ2_GT => jz(Width::Two, Condition::Gt, operands),
        JZ2_LE => jz(Width::Two, Condition::Le, operands),
        JCMP1_EQ => jcmp(Width::One, Condition::Eq, operands),
        JCMP1_NE => jcmp(Width::One, Condition::Ne, operands),
        JCMP1_LT => jcmp(Width::One, Condition::Lt, operands),
        JCMP1_GE => jcmp(Width::One, Condition::Ge, operands),
        JCMP1_GT => jcmp(Width::One, Condition::Gt, operands),
        JCMP1_LE => jcmp(Width::One, Condition::Le, operands),
        JCMP2_EQ => jcmp(Width::Two, Condition::Eq, operands),
        JCMP2_NE => jcmp(Width::Two, Condition::Ne, operands),
        JCMP2_LT => jcmp(Width::Two, Condition::Lt, operands),
        JCMP2_GE => jcmp(Width::Two, Condition::Ge, operands),
        JCMP2_GT => jcmp(Width::Two, Condition::Gt, operands),
        JCMP2_LE => jcmp(Width::Two, Condition::Le, operands),
        RJEQ => rj(RefTest::Equal, operands),
        RJNE => rj(RefTest::NotEqual, operands),
        RJNULL => rj(RefTest::Null, operands),
        RJNONNULL => rj(RefTest::NonNull, operands),
        GOTO => u2(operands).map(|target| (MInsn::Goto { target }, 3)),
        SWITCH1 => switch(Width::One, operands),
        SWITCH2 => switch(Width::Two, operands),
        TABLE1 => table(Width::One, operands),
        TABLE2 => table(Width::Two, operands),
        _ => None,
    }
}

/// RET to RET2.
#[inline(always)]
#[tactic(auto, unfolding(crate::specs::Reading::ret_in))]
fn ret(opcode: u8) -> Option<(MInsn, usize)>
    ensures { result ≡ ret_in opcode }
{
    let result = match opcode {
        RET => None,
        RRET => Some(Kind::Ref),
        RET1 => Some(Kind::One),
        RET2 => Some(Kind::Two),
        _ => return None,
    };
    Some((MInsn::Ret { result }, 1))
}

/// RGETS to PUTS2.
#[inline(always)]
#[tactic(auto, unfolding(crate::specs::Reading::static_in))]
fn static_place(opcode: u8, operands: &[u8]) -> Option<(MInsn, usize)>
    ensures { result ≡ static_in opcode operands.now }
{
    match opcode {
        RGETS => get_static(Kind::Ref, operands),
        RPUTS => put_static(Kind::Ref, operands),
        GETS1 => get_static(Kind::One, operands),
        GETS2 => get_static(Kind::Two, operands),
        PUTS1 => put_static(Kind::One, operands),
        PUTS2 => put_static(Kind::Two, operands),
        _ => None,
    }
}

/// RGETF to PUTF2.
#[inline(always)]
#[tactic(auto, unfolding(crate::specs::Reading::field_in))]
fn field_place(opcode: u8, operands: &[u8]) -> Option<(MInsn, usize)>
    ensures { result ≡ field_in opcode operands.now }
{
    match opcode {
        RGETF => get_field(Kind::Ref, operands),
        RPUTF => put_field(Kind::Ref, operands),
        GETF1 => get_field(Kind::One, operands),
        GETF2 => get_field(Kind::Two, operands),
        PUTF1 => put_field(Kind::One, operands),
        PUTF2 => put_field(Kind::Two, operands),
        _ => None,
    }
}

/// NEWARR1 to ALEN.
#[inline(always)]
#[tactic(auto, unfolding(crate::specs::Reading::array_in))]
fn array(opcode: u8, operands: &[u8]) -> Option<(MInsn, usize)>
    ensures { result ≡ array_in opcode operands.now }
{
    match opcode {
        NEWARR1 => new_array(Width::One, operands),
        NEWARR2 => new_array(Width::Two, operands),
        MULTI => multi(operands),
        ALEN => Some((MInsn::ALen, 1)),
        _ => None,
    }
}

/// RALOAD1 to IASTORE2.
#[inline(always)]
#[tactic(auto, unfolding(crate::specs::Reading::element_in))]
fn element_place(opcode: u8) -> Option<(MInsn, usize)>
    ensures { result ≡ element_in opcode }
{
    match opcode {
        RALOAD1 => load_element(Element::Ref, Width::One),
        RALOAD2 => load_element(Element::Ref, Width::Two),
        BALOAD1 => load_element(Element::Byte, Width::One),
        BALOAD2 => load_element(Element::Byte, Width::Two),
        HALOAD1 => load_element(Element::Half, Width::One),
        HALOAD2 => load_element(Element::Half, Width::Two),
        IALOAD1 => load_element(Element::Int, Width::One),
        IALOAD2 => load_element(Element::Int, Width::Two),
        RASTORE1 => store_element(Element::Ref, Width::One),
        RASTORE2 => store_element(Element::Ref, Width::Two),
        BASTORE1 => store_element(Element::Byte, Width::One),
        BASTORE2 => store_element(Element::Byte, Width::Two),
        HASTORE1 => store_element(Element::Half, Width::One),
        HASTORE2 => store_element(Element::Half, Width::Two),
        IASTORE1 => store_element(Element::Int, Width::One),
        IASTORE2 => store_element(Element::Int, Width::Two),
        _ => None,
    }
}

/// NEW to CALLI.
#[inline(always)]
#[tactic(auto, unfolding(crate::specs::Reading::object_in))]
fn object(opcode: u8, operands: &[u8]) -> Option<(MInsn, usize)>
    ensures { result ≡ object_in opcode operands.now }
{
    match opcode {
        NEW => u2(operands).map(|id| (MInsn::New { id }, 3)),
        CAST => u2(operands).map(|id| (MInsn::Cast { id }, 3)),
        INST => u2(operands).map(|id| (MInsn::Inst { id }, 3)),
        THROW => Some((MInsn::Throw, 1)),
        CALLS => u2(operands).map(|method| (MInsn::CallS { method }, 3)),
        CALLX => u2(operands).map(|method| (MInsn::CallX { method }, 3)),
        CALLV => u2(operands).map(|selector| (MInsn::CallV { selector }, 3)),
        CALLI => calli(operands),
        _ => None,
    }
}

/// The instruction of a first byte.
#[inline(always)]
#[tactic(auto, unfolding(crate::specs::Reading::insn_in))]
pub(crate) fn insn(opcode: u8, operands: &[u8]) -> Option<(MInsn, usize)>
    ensures { result ≡ insn_in opcode operands.now }
{
    match opcode / 16 {
        0x0 if opcode < RLOAD => constant(opcode, operands),
        0x0 => local(opcode, operands),
        0x1 => stack(opcode, operands),
        0x2 | 0x3 | 0x4 => number(opcode),
        0x7 if opcode >= RET => ret(opcode),
        0x5 | 0x6 | 0x7 => jump(opcode, operands),
        0x8 if opcode < RGETF => static_place(opcode, operands),
        0x8 => field_place(opcode, operands),
        0x9 => array(opcode, operands),
        0xa => element_place(opcode),
        _ => object(opcode, operands),
    }
}
