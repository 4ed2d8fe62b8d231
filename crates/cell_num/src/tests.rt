//! Values of JVMS 6.5, of two's complement and of plain arithmetic.

ghost use Rattle.std.specs.Prelude.{◌≡◌, ◌<◌};

use super::*;
use std::marker::Brand;
use std::mem::size_of;
use std::sync::ledger::{Blank, Ledger};
use std::test::*;

const LEAST: i32 = i32::MIN;

const GREATEST: i32 = i32::MAX;

#[test]
fn each_code_has_its_operation(rt: HostRuntime) {
    let in_order = [
        BinOp::Add,
        BinOp::Sub,
        BinOp::Mul,
        BinOp::Div,
        BinOp::Rem,
        BinOp::Shl,
        BinOp::Shr,
        BinOp::Ushr,
        BinOp::And,
        BinOp::Or,
        BinOp::Xor,
    ];
    for (code, op) in (0u8..11).zip(in_order) {
        assert!(rt; BinOp::of_code(code) == Some(op), "at {code}");
    }
    assert!(rt; BinOp::of_code(11).is_none());
    assert!(rt; BinOp::of_code(255).is_none());
}

#[test]
fn operations_at_their_corners(rt: HostRuntime) {
    for (op, a, b, want) in [
        (BinOp::Add, GREATEST, 1, LEAST),
        (BinOp::Add, LEAST, -1, GREATEST),
        (BinOp::Sub, LEAST, 1, GREATEST),
        (BinOp::Sub, 0, LEAST, LEAST),
        (BinOp::Mul, 65536, 65536, 0),
        (BinOp::Mul, 46341, 46341, -2147479015),
        (BinOp::Mul, LEAST, -1, LEAST),
        (BinOp::Div, 7, 2, 3),
        (BinOp::Div, -7, 2, -3),
        (BinOp::Div, 7, -2, -3),
        (BinOp::Div, -7, -2, 3),
        (BinOp::Div, LEAST, -1, LEAST),
        (BinOp::Rem, 7, 2, 1),
        (BinOp::Rem, -7, 2, -1),
        (BinOp::Rem, 7, -2, 1),
        (BinOp::Rem, -7, -2, -1),
        (BinOp::Rem, LEAST, -1, 0),
        (BinOp::Shl, 1, 31, LEAST),
        (BinOp::Shl, 1, 32, 1),
        (BinOp::Shl, 1, 33, 2),
        (BinOp::Shl, 3, -1, LEAST),
        (BinOp::Shr, -7, 1, -4),
        (BinOp::Shr, -8, 32, -8),
        (BinOp::Shr, -8, 33, -4),
        (BinOp::Shr, LEAST, -1, -1),
        (BinOp::Ushr, -1, 28, 15),
        (BinOp::Ushr, -1, 32, -1),
        (BinOp::Ushr, -8, 33, 2147483644),
        (BinOp::Ushr, LEAST, -1, 1),
        (BinOp::And, -1, 255, 255),
        (BinOp::And, LEAST, -1, LEAST),
        (BinOp::Or, -256, 255, -1),
        (BinOp::Or, LEAST, 1, -2147483647),
        (BinOp::Xor, -1, 255, -256),
        (BinOp::Xor, LEAST, -1, GREATEST),
    ] {
        assert!(rt; apply(op, a, b) == Some(want), "{op:?} of {a} and {b}");
    }
}

#[test]
fn only_a_divisor_of_zero_has_no_result(rt: HostRuntime) {
    for code in 0u8..11 {
        let divides = code == 3 || code == 4;
        for a in [0, 1, -1, LEAST] {
            let given = BinOp::of_code(code).and_then(|op| apply(op, a, 0));
            assert!(rt; given.is_none() == divides, "code {code} at {a}");
        }
    }
}

#[test]
fn conversions_past_the_ends(rt: HostRuntime) {
    for (v, byte, char, short) in [
        (127, 127, 127, 127),
        (128, -128, 128, 128),
        (-129, 127, 65407, -129),
        (255, -1, 255, 255),
        (32768, 0, 32768, -32768),
        (65535, -1, 65535, -1),
        (65536, 0, 0, 0),
        (-1, -1, 65535, -1),
    ] {
        assert_eq!(rt; convert(Conv::Byte, v), byte, "byte of {v}");
        assert_eq!(rt; convert(Conv::Char, v), char, "char of {v}");
        assert_eq!(rt; convert(Conv::Short, v), short, "short of {v}");
    }
}

#[test]
fn conditions_compare_with_the_sign(rt: HostRuntime) {
    for (a, b, less, equal) in [
        (1, 1, false, true),
        (-1, 0, true, false),
        (0, -1, false, false),
        (LEAST, GREATEST, true, false),
        (GREATEST, LEAST, false, false),
    ] {
        assert_eq!(rt; holds(Cond::Eq, a, b), equal, "{a} eq {b}");
        assert_eq!(rt; holds(Cond::Ne, a, b), !equal, "{a} ne {b}");
        assert_eq!(rt; holds(Cond::Lt, a, b), less, "{a} lt {b}");
        assert_eq!(rt; holds(Cond::Ge, a, b), !less, "{a} ge {b}");
        assert_eq!(rt; holds(Cond::Gt, a, b), !less && !equal, "{a} gt {b}");
        assert_eq!(rt; holds(Cond::Le, a, b), less || equal, "{a} le {b}");
    }
}

#[test]
fn numbers_in_cells(rt: HostRuntime) {
    for (v, low_half, high_half) in [
        (0, 0, 0),
        (1, 1, 0),
        (65536, 0, 1),
        (0x1234_5678, 0x5678, 0x1234),
        (-1, 0xffff, 0xffff),
        (-32768, 0x8000, 0xffff),
        (-65537, 0xffff, 0xfffe),
        (LEAST, 0, 0x8000),
        (GREATEST, 0xffff, 0x7fff),
    ] {
        assert!(rt; split(v) == (low_half, high_half), "the cells of {v}");
        assert_eq!(rt; join(low_half, high_half), v);
        assert_eq!(rt; low(v), low_half, "the low cell of {v}");
    }
    for (cell, want) in [(0, 0), (0x7fff, 32767), (0x8000, -32768), (0xffff, -1)] {
        assert_eq!(rt; sext(cell), want);
    }
}

#[test]
fn ranges_end_at_thresholds(rt: HostRuntime) {
    let least = i64::from(LEAST);
    let greatest = i64::from(GREATEST);
    for (lo, hi, want_lo, want_hi) in [
        (0, 0, 0, 0),
        (2, 2, 1, 127),
        (-2, -2, -128, -1),
        (-128, 127, -128, 127),
        (-129, 128, -32768, 255),
        (127, 256, 127, 32767),
        (-32768, 32767, -32768, 32767),
        (-32769, 32768, LEAST, 65535),
        (65535, 65536, 65535, GREATEST),
        (least, greatest, LEAST, GREATEST),
        (least - 1, 0, LEAST, GREATEST),
        (0, greatest + 1, LEAST, GREATEST),
        (greatest + 1, greatest + 2, LEAST, GREATEST),
        (i64::MIN, i64::MIN, LEAST, GREATEST),
    ] {
        assert!(rt; lo <= hi);
        let range = round_out(lo, hi);
        assert_eq!(rt; range.lo, want_lo, "from {lo}");
        assert_eq!(rt; range.hi, want_hi, "to {hi}");
    }
}

/// Two steps on a counter of its own.
fn two_steps<L: Ledger>(blank: Blank)
    requires name { blank.name ≡ L.name }
    requires parts { blank.parts ≡ L.parts }
    requires some { 0 < blank.parts }
{
    let mut steps = Steps::<L>::new(blank);
    steps.tick();
    steps.tick();
}

#[test]
fn a_counter_takes_no_bytes(rt: HostRuntime) {
    two_steps::<Brand>(Blank::new(1));
    assert_eq!(rt; size_of::<Steps<Brand>>(), 0);
}
