//! The first bytes of the families, by what they vary in.

ghost use Rattle.std.specs.Prelude.{◌≡◌, ◌≤◌};
ghost use Rattle.image_instr.specs.Insn.{load_code as load_code_of, store_code as store_code_of, inc_code as inc_code_of, operation_code as operation_code_of, bin_code as bin_code_of, neg_code as neg_code_of, condition_code as condition_code_of, jz_code as jz_code_of, jcmp_code as jcmp_code_of, test_code as test_code_of, switch_code as switch_code_of, table_code as table_code_of, ret_code as ret_code_of, get_static_code as get_static_code_of, put_static_code as put_static_code_of, get_field_code as get_field_code_of, put_field_code as put_field_code_of, new_array_code as new_array_code_of, load_element_code as load_element_code_of, store_element_code as store_element_code_of};

use crate::insn::{Condition, Element, Kind, Operation, RefTest, Width};
use crate::opcode::*;

pub(crate) fn load_code(kind: Kind) -> u8
    ensures { result ≡ load_code_of kind }
{
    match kind {
        Kind::Ref => RLOAD,
        Kind::One => LOAD1,
        Kind::Two => LOAD2,
    }
}

pub(crate) fn store_code(kind: Kind) -> u8
    ensures { result ≡ store_code_of kind }
{
    match kind {
        Kind::Ref => RSTORE,
        Kind::One => STORE1,
        Kind::Two => STORE2,
    }
}

pub(crate) fn inc_code(width: Width) -> u8
    ensures { result ≡ inc_code_of width }
{
    match width {
        Width::One => INC1,
        Width::Two => INC2,
    }
}

pub(crate) fn operation_code(operation: Operation) -> u8
    ensures value { result ≡ operation_code_of operation }
    ensures most { result ≤ 10 }
{
    match operation {
        Operation::Add => 0,
        Operation::Sub => 1,
        Operation::Mul => 2,
        Operation::Div => 3,
        Operation::Rem => 4,
        Operation::Shl => 5,
        Operation::Shr => 6,
        Operation::Ushr => 7,
        Operation::And => 8,
        Operation::Or => 9,
        Operation::Xor => 10,
    }
}

/// The first byte of addition, which the operation's code is added to.
pub(crate) fn bin_code(width: Width) -> u8
    ensures value { result ≡ bin_code_of width }
    ensures most { result ≤ 128 }
{
    match width {
        Width::One => BIN1_ADD,
        Width::Two => BIN2_ADD,
    }
}

pub(crate) fn neg_code(width: Width) -> u8
    ensures { result ≡ neg_code_of width }
{
    match width {
        Width::One => NEG1,
        Width::Two => NEG2,
    }
}

pub(crate) fn condition_code(condition: Condition) -> u8
    ensures value { result ≡ condition_code_of condition }
    ensures most { result ≤ 5 }
{
    match condition {
        Condition::Eq => 0,
        Condition::Ne => 1,
        Condition::Lt => 2,
        Condition::Ge => 3,
        Condition::Gt => 4,
        Condition::Le => 5,
    }
}

/// The first byte of the test for 0, which the condition's code is added to.
pub(crate) fn jz_code(width: Width) -> u8
    ensures value { result ≡ jz_code_of width }
    ensures most { result ≤ 128 }
{
    match width {
        Width::One => JZ1_EQ,
        Width::Two => JZ2_EQ,
    }
}

/// The first byte of the test for equality, which the condition's code is added to.
pub(crate) fn jcmp_code(width: Width) -> u8
    ensures value { result ≡ jcmp_code_of width }
    ensures most { result ≤ 128 }
{
    match width {
        Width::One => JCMP1_EQ,
        Width::Two => JCMP2_EQ,
    }
}

pub(crate) fn test_code(test: RefTest) -> u8
    ensures { result ≡ test_code_of test }
{
    match test {
        RefTest::Equal => RJEQ,
        RefTest::NotEqual => RJNE,
        RefTest::Null => RJNULL,
        RefTest::NonNull => RJNONNULL,
    }
}

pub(crate) fn switch_code(width: Width) -> u8
    ensures { result ≡ switch_code_of width }
{
    match width {
        Width::One => SWITCH1,
        Width::Two => SWITCH2,
    }
}

pub(crate) fn table_code(width: Width) -> u8
    ensures { result ≡ table_code_of width }
{
    match width {
        Width::One => TABLE1,
        Width::Two => TABLE2,
    }
}

pub(crate) fn ret_code(returned: Option<Kind>) -> u8
    ensures { result ≡ ret_code_of returned }
{
    match returned {
        None => RET,
        Some(Kind::Ref) => RRET,
        Some(Kind::One) => RET1,
        Some(Kind::Two) => RET2,
    }
}

pub(crate) fn get_static_code(kind: Kind) -> u8
    ensures { result ≡ get_static_code_of kind }
{
    match kind {
        Kind::Ref => RGETS,
        Kind::One => GETS1,
        Kind::Two => GETS2,
    }
}

pub(crate) fn put_static_code(kind: Kind) -> u8
    ensures { result ≡ put_static_code_of kind }
{
    match kind {
        Kind::Ref => RPUTS,
        Kind::One => PUTS1,
        Kind::Two => PUTS2,
    }
}

pub(crate) fn get_field_code(kind: Kind) -> u8
    ensures { result ≡ get_field_code_of kind }
{
    match kind {
        Kind::Ref => RGETF,
        Kind::One => GETF1,
        Kind::Two => GETF2,
    }
}

pub(crate) fn put_field_code(kind: Kind) -> u8
    ensures { result ≡ put_field_code_of kind }
{
    match kind {
        Kind::Ref => RPUTF,
        Kind::One => PUTF1,
        Kind::Two => PUTF2,
    }
}

pub(crate) fn new_array_code(width: Width) -> u8
    ensures { result ≡ new_array_code_of width }
{
    match width {
        Width::One => NEWARR1,
        Width::Two => NEWARR2,
    }
}

pub(crate) fn load_element_code(element: Element, width: Width) -> u8
    ensures { result ≡ load_element_code_of element width }
{
    match (element, width) {
        (Element::Ref, Width::One) => RALOAD1,
        (Element::Ref, Width::Two) => RALOAD2,
        (Element::Byte, Width::One) => BALOAD1,
        (Element::Byte, Width::Two) => BALOAD2,
        (Element::Half, Width::One) => HALOAD1,
        (Element::Half, Width::Two) => HALOAD2,
        (Element::Int, Width::One) => IALOAD1,
        (Element::Int, Width::Two) => IALOAD2,
    }
}

pub(crate) fn store_element_code(element: Element, width: Width) -> u8
    ensures { result ≡ store_element_code_of element width }
{
    match (element, width) {
        (Element::Ref, Width::One) => RASTORE1,
        (Element::Ref, Width::Two) => RASTORE2,
        (Element::Byte, Width::One) => BASTORE1,
        (Element::Byte, Width::Two) => BASTORE2,
        (Element::Half, Width::One) => HASTORE1,
        (Element::Half, Width::Two) => HASTORE2,
        (Element::Int, Width::One) => IASTORE1,
        (Element::Int, Width::Two) => IASTORE2,
    }
}
