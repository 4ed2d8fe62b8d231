//! Instructions that move operands.

ghost use Rattle.std.specs.Prelude.{◌≡◌, ◌≤◌, ◌++◌, length, OnOk};
ghost use Rattle.jvm_model.specs.ImageExpansion.{remove as removed, copy as copied, exchange as exchanged, restack as restacked};
ghost use Rattle.expansion.specs.Expanding.{insns};

use crate::push::{push, push_some};
use crate::shapes::{cells_in, cells_of, refs_in, second_of, top_of, window};
use image_instr::{Kind, MInsn};
use insn_form::StackForm;
use std::alloc::AllocError;

/// Appends what removes operands.
#[tactic(auto, using(crate::proofs::Appended::both))]
fn remove(shapes: &[Kind], out: &mut Vec<MInsn>) -> Result<(), AllocError>
    requires { length shapes.now ≤ 2 }
    ensures { OnOk result (out.new.items ≡ out.old.items ++ insns (removed shapes.now)) }
{
    let refs = refs_in(shapes);
    let cells = cells_in(shapes);
    push_some(refs, MInsn::RPop { count: refs }, out)?;
    push_some(cells, MInsn::Pop { count: cells }, out)
}

/// Appends what copies the operands at the top below others.
#[tactic(auto, using(crate::proofs::Appended::both))]
fn copy(top: &[Kind], below: &[Kind], out: &mut Vec<MInsn>) -> Result<(), AllocError>
    requires top { length top.now ≤ 2 }
    requires below { length below.now ≤ 2 }
    ensures { OnOk result (out.new.items ≡ out.old.items ++ insns (copied top.now below.now)) }
{
    let refs = refs_in(top);
    let cells = cells_in(top);
    let below_refs = refs_in(below);
    let below_cells = cells_in(below);
    push_some(
        refs,
        MInsn::RDupX {
            m: refs,
            n: below_refs,
        },
        out,
    )?;
    push_some(
        cells,
        MInsn::DupX {
            m: cells,
            n: below_cells,
        },
        out,
    )
}

/// Appends what exchanges the two operands at the top. A reference and a number stand apart.
#[tactic(auto, using(crate::proofs::Appended::nothing_more))]
fn exchange(top: Kind, below: Kind, out: &mut Vec<MInsn>) -> Result<(), AllocError>
    ensures { OnOk result (out.new.items ≡ out.old.items ++ insns (exchanged top below)) }
{
    let swap = MInsn::Swap {
        m: cells_of(top),
        n: cells_of(below),
    };
    match (top, below) {
        (Kind::Ref, Kind::Ref) => push(MInsn::RSwap, out),
        (Kind::Ref, Kind::One | Kind::Two) | (Kind::One | Kind::Two, Kind::Ref) => Ok(()),
        (Kind::One | Kind::Two, Kind::One | Kind::Two) => push(swap, out),
    }
}

/// Appends what an instruction from pop to swap does with operands of these shapes.
pub(crate) fn restack(
    form: StackForm,
    shapes: &[Kind],
    out: &mut Vec<MInsn>,
) -> Result<(), AllocError>
    ensures { OnOk result (out.new.items ≡ out.old.items ++ insns (restacked form shapes.now)) }
{
    let one = window(shapes, 0, 1);
    let two = window(shapes, 0, 2);
    match form {
        StackForm::Pop => remove(one, out),
        StackForm::Pop2 => remove(two, out),
        StackForm::Dup => copy(one, &[], out),
        StackForm::DupX1 => copy(one, window(shapes, 1, 1), out),
        StackForm::DupX2 => copy(one, window(shapes, 1, 2), out),
        StackForm::Dup2 => copy(two, &[], out),
        StackForm::Dup2X1 => copy(two, window(shapes, 2, 1), out),
        StackForm::Dup2X2 => copy(two, window(shapes, 2, 2), out),
        StackForm::Swap => exchange(top_of(shapes), second_of(shapes), out),
    }
}
