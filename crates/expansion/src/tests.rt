//! Expansions by hand: what is pushed and removed is counted apart for references and cells.

ghost use Rattle.expansion.specs.Expanding.{KeepsCounts};

use crate::{Around, Numbers, expand};
use body_form::{Op, UnaryOp};
use cell_num::Conv;
use image_instr::{Element, Kind, MInsn, Width};
use insn_form::{ElementKind, StackForm};
use item_list::Items;
use std::alloc::{AllocError, Global};
use std::test::*;

const NUMBERS: Numbers = Numbers {
    slot: None,
    cell: 0,
    width: Width::Two,
    place: 0,
    type_id: 0,
    method: 0,
    selector: 0,
    target: 0,
};

const MIXED: &[Kind] = &[Kind::One, Kind::Ref, Kind::Two];

const NUMBERS_ALONE: &[Kind] = &[Kind::Two, Kind::Two, Kind::Two, Kind::Two];

const POPS: &[MInsn] = &[MInsn::RPop { count: 1 }, MInsn::Pop { count: 1 }];

const COPIES: &[MInsn] = &[MInsn::RDupX { m: 1, n: 0 }, MInsn::DupX { m: 1, n: 2 }];

const MOST_CELLS: &[MInsn] = &[MInsn::DupX { m: 4, n: 4 }];

const SWAPPED: &[MInsn] = &[MInsn::Swap { m: 2, n: 2 }];

const APART: &[MInsn] = &[];

const FORMS: &[(StackForm, &[Kind], &[MInsn])] = &[
    (StackForm::Pop2, MIXED, POPS),
    (StackForm::Dup2X1, MIXED, COPIES),
    (StackForm::Dup2X2, NUMBERS_ALONE, MOST_CELLS),
    (StackForm::Swap, NUMBERS_ALONE, SWAPPED),
    (StackForm::Swap, MIXED, APART),
];

const BYTE_OF_TWO: &[MInsn] = &[MInsn::Pop { count: 1 }, MInsn::Sb, MInsn::Sx];

const BOOLEAN_READ: &[MInsn] = &[
    MInsn::ALoad {
        element: Element::Byte,
        width: Width::Two,
    },
    MInsn::Zx,
];

fn expansion(
    alloc: Global,
    op: &Op,
    before: &[Kind],
    boolean: bool,
) -> Result<Vec<MInsn>, AllocError>
    requires { KeepsCounts op.now }
{
    let mut shapes = Vec::new(alloc);
    shapes.extend_from_slice(before)?;
    let around = Around {
        before: Items::from_vec(shapes),
        after: Kind::Two,
        boolean,
    };
    let mut insns = Vec::new(alloc);
    expand(&around, NUMBERS, &None, op, &mut insns)?;
    Ok(insns)
}

#[test]
fn moves_references_and_cells_apart(rt: HostRuntime) -> Result<(), Fail> {
    for &(form, before, want) in FORMS {
        let found = expansion(rt.alloc(), &Op::Stack(form), before, false)?;
        assert!(rt; found.as_slice() == want);
    }
    Ok(())
}

#[test]
fn narrows_bytes(rt: HostRuntime) -> Result<(), Fail> {
    let to_byte = Op::Unary(UnaryOp::Convert(Conv::Byte));
    let found = expansion(rt.alloc(), &to_byte, NUMBERS_ALONE, false)?;
    assert!(rt; found.as_slice() == BYTE_OF_TWO);
    Ok(())
}

#[test]
fn extends_booleans_by_zero(rt: HostRuntime) -> Result<(), Fail> {
    let load = Op::ArrayLoad(ElementKind::Byte);
    let found = expansion(rt.alloc(), &load, NUMBERS_ALONE, true)?;
    assert!(rt; found.as_slice() == BOOLEAN_READ);
    Ok(())
}
