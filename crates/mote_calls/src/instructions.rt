//! Each form of a machine instruction is read again as it is written, and moves what it says.

ghost use Rattle.image_instr.specs.Insn.{KeepsLimits, AreRowsOf};

use image_instr::{Effect, Kind, MInsn, Sig, SwitchRow, Width, decode_at, effect, encode};
use std::alloc::{AllocError, Global};
use std::process::Abort;
use std::test::*;

/// What is written is read again, with its size.
fn is_read_again(
    rt: &impl Abort,
    alloc: Global,
    insn: MInsn,
    rows: &[SwitchRow],
) -> Result<(), AllocError>
    requires limits { KeepsLimits insn }
    requires rows_of { AreRowsOf insn rows.now }
{
    let mut code = Vec::new(alloc);
    encode(alloc, insn, rows, &mut code)?;
    assert!(rt; decode_at(&code, 0) == Some((insn, code.len())));
    Ok(())
}

#[test]
fn each_plain_form_is_read_again(rt: HostRuntime) -> Result<(), Fail> {
    let alloc = rt.alloc();
    let kind = Kind::Ref;
    is_read_again(&rt, alloc, MInsn::Const2 { value: i32::MIN }, &[])?;
    is_read_again(&rt, alloc, MInsn::Small1 { value: -1 }, &[])?;
    is_read_again(&rt, alloc, MInsn::Null, &[])?;
    is_read_again(&rt, alloc, MInsn::Store { kind, local: 255 }, &[])?;
    is_read_again(&rt, alloc, MInsn::DupX { m: 4, n: 0 }, &[])?;
    Ok(is_read_again(&rt, alloc, MInsn::Pop { count: 4 }, &[])?)
}

#[test]
fn each_form_with_an_id_is_read_again(rt: HostRuntime) -> Result<(), Fail> {
    let alloc = rt.alloc();
    let kind = Kind::Ref;
    let call = MInsn::CallI {
        selector: 1,
        id: 33,
    };
    let inc = MInsn::Inc {
        width: Width::Two,
        local: 300,
        amount: -2,
    };
    is_read_again(&rt, alloc, inc, &[])?;
    is_read_again(&rt, alloc, MInsn::PutF { kind, place: 254 }, &[])?;
    is_read_again(&rt, alloc, MInsn::Multi { id: 40, dims: 2 }, &[])?;
    Ok(is_read_again(&rt, alloc, call, &[])?)
}

#[test]
fn each_switch_is_read_again(rt: HostRuntime) -> Result<(), Fail> {
    let alloc = rt.alloc();
    let width = Width::Two;
    let (key, target) = (-7, 12);
    let table = MInsn::Table {
        width,
        default: 9,
        low: key,
        count: 1,
    };
    let switch = MInsn::Switch {
        width,
        default: 9,
        count: 1,
    };
    is_read_again(&rt, alloc, table, &[SwitchRow { key, target }])?;
    Ok(is_read_again(&rt, alloc, switch, &[SwitchRow { key, target }])?)
}

#[test]
fn a_call_moves_what_its_signature_says(rt: HostRuntime) -> Result<(), Fail> {
    let sig = Sig {
        refs: 2,
        cells: 3,
        result: 3,
    };
    let moved = Effect {
        ref_pop: 2,
        ref_push: 0,
        cell_pop: 3,
        cell_push: 2,
    };
    assert_eq!(rt; effect(MInsn::CallV { selector: 0 }, sig), moved);
    Ok(())
}
