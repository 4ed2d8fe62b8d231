//! What an instruction takes from the operands and gives to them.

ghost use Rattle.std.specs.Prelude.{◌≡◌, ◌≤◌};
ghost use Rattle.image_instr.specs.Effect.{moves as moves_of, refs_of as kind_refs, cells_of as kind_cells, cells_in as width_cells, loaded as loaded_of, stored as stored_of, tested_refs as tested_refs_of, element_refs as element_refs_of, element_cells as element_cells_of, returned as returned_of, called as called_of, effect_of};

use crate::insn::{Element, Kind, MInsn, RefTest, Width};
use crate::signature::{Effect, Sig};

fn moves(ref_pop: u32, ref_push: u32, cell_pop: u32, cell_push: u32) -> Effect
    ensures { result ≡ moves_of ref_pop ref_push cell_pop cell_push }
{
    Effect {
        ref_pop,
        ref_push,
        cell_pop,
        cell_push,
    }
}

fn refs_of(kind: Kind) -> u32
    ensures { result ≡ kind_refs kind }
{
    match kind {
        Kind::Ref => 1,
        Kind::One | Kind::Two => 0,
    }
}

fn cells_of(kind: Kind) -> u32
    ensures { result ≡ kind_cells kind }
{
    match kind {
        Kind::Ref => 0,
        Kind::One => 1,
        Kind::Two => 2,
    }
}

fn cells_in(width: Width) -> u32
    ensures value { result ≡ width_cells width }
    ensures most { result ≤ 2 }
{
    match width {
        Width::One => 1,
        Width::Two => 2,
    }
}

/// Pops so many references, and pushes a value of the kind.
fn loaded(refs: u32, kind: Kind) -> Effect
    ensures { result ≡ loaded_of refs kind }
{
    moves(refs, refs_of(kind), 0, cells_of(kind))
}

/// Pops so many references below a value of the kind, and the value.
fn stored(refs: u32, kind: Kind) -> Effect
    requires { refs ≤ 1 }
    ensures { result ≡ stored_of refs kind }
{
    moves(refs + refs_of(kind), 0, cells_of(kind), 0)
}

fn tested_refs(test: RefTest) -> u32
    ensures { result ≡ tested_refs_of test }
{
    match test {
        RefTest::Equal | RefTest::NotEqual => 2,
        RefTest::Null | RefTest::NonNull => 1,
    }
}

fn element_refs(element: Element) -> u32
    ensures value { result ≡ element_refs_of element }
    ensures most { result ≤ 1 }
{
    match element {
        Element::Ref => 1,
        Element::Byte | Element::Half | Element::Int => 0,
    }
}

fn element_cells(element: Element) -> u32
    ensures value { result ≡ element_cells_of element }
    ensures most { result ≤ 2 }
{
    match element {
        Element::Ref => 0,
        Element::Byte | Element::Half => 1,
        Element::Int => 2,
    }
}

/// Pops the result.
fn returned(value: Option<Kind>) -> Effect
    ensures { result ≡ returned_of value }
{
    match value {
        Some(kind) => stored(0, kind),
        None => moves(0, 0, 0, 0),
    }
}

/// Pops the arguments, and pushes the result.
fn called(sig: Sig) -> Effect
    ensures { result ≡ called_of sig }
{
    let refs = u32::from(sig.refs);
    let cells = u32::from(sig.cells);
    match sig.result {
        1 => moves(refs, 1, cells, 0),
        2 => moves(refs, 0, cells, 1),
        3 => moves(refs, 0, cells, 2),
        _ => moves(refs, 0, cells, 0),
    }
}

/// How an instruction moves operands; the signature is that of what a call calls, and counts for
/// calls alone.
pub fn effect(insn: MInsn, sig: Sig) -> Effect
    ensures { result ≡ effect_of insn sig }
{
    match insn {
        MInsn::Const1 { .. } | MInsn::Small1 { .. } => moves(0, 0, 0, 1),
        MInsn::Const2 { .. } | MInsn::Small2 { .. } | MInsn::Mid2 { .. } => moves(0, 0, 0, 2),
        MInsn::Null => moves(0, 1, 0, 0),
        MInsn::Load { kind, .. } => loaded(0, kind),
        MInsn::Store { kind, .. } => stored(0, kind),
        MInsn::RClear { .. } | MInsn::Inc { .. } => moves(0, 0, 0, 0),
        MInsn::RDupX { m, n } => {
            let (m, n) = (u32::from(m), u32::from(n));
            moves(m + n, m + n + m, 0, 0)
        }
        MInsn::DupX { m, n } => {
            let (m, n) = (u32::from(m), u32::from(n));
            moves(0, 0, m + n, m + n + m)
        }
        MInsn::RPop { count } => moves(u32::from(count), 0, 0, 0),
        MInsn::Pop { count } => moves(0, 0, u32::from(count), 0),
        MInsn::RSwap => moves(2, 2, 0, 0),
        MInsn::Swap { m, n } => {
            let cells = u32::from(m) + u32::from(n);
            moves(0, 0, cells, cells)
        }
        MInsn::Drop { above } => moves(0, 0, u32::from(above) + 1, u32::from(above)),
        MInsn::Bin { width, .. } => moves(0, 0, 2 * cells_in(width), cells_in(width)),
        MInsn::Neg { width } => moves(0, 0, cells_in(width), cells_in(width)),
        MInsn::Sx | MInsn::Zx => moves(0, 0, 1, 2),
        MInsn::Sb | MInsn::Bit => moves(0, 0, 1, 1),
        MInsn::Jz { width, .. } => moves(0, 0, cells_in(width), 0),
        MInsn::JCmp { width, .. } => moves(0, 0, 2 * cells_in(width), 0),
        MInsn::RJ { test, .. } => moves(tested_refs(test), 0, 0, 0),
        MInsn::Goto { .. } => moves(0, 0, 0, 0),
        MInsn::Switch { width, .. } | MInsn::Table { width, .. } => {
            moves(0, 0, cells_in(width), 0)
        }
        MInsn::Ret { result } => returned(result),
        MInsn::GetS { kind, .. } => loaded(0, kind),
        MInsn::PutS { kind, .. } => stored(0, kind),
        MInsn::GetF { kind, .. } => loaded(1, kind),
        MInsn::PutF { kind, .. } => stored(1, kind),
        MInsn::NewArr { width, .. } => moves(0, 1, cells_in(width), 0),
        MInsn::Multi { dims, .. } => moves(0, 1, 2 * u32::from(dims), 0),
        MInsn::ALen => moves(1, 0, 0, 1),
        MInsn::ALoad { element, width } => moves(
            1,
            element_refs(element),
            cells_in(width),
            element_cells(element),
        ),
        MInsn::AStore { element, width } => moves(
            1 + element_refs(element),
            0,
            cells_in(width) + element_cells(element),
            0,
        ),
        MInsn::New { .. } => moves(0, 1, 0, 0),
        MInsn::Cast { .. } => moves(1, 1, 0, 0),
        MInsn::Inst { .. } => moves(1, 0, 0, 1),
        MInsn::Throw => moves(1, 0, 0, 0),
        MInsn::CallS { .. } | MInsn::CallX { .. } | MInsn::CallV { .. } | MInsn::CallI { .. } => {
            called(sig)
        }
    }
}
