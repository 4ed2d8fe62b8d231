//! The step of a plain instruction.

ghost use Rattle.std.specs.Prelude.{◌≡◌, true};
ghost use Rattle.split_safety.specs.Ready.{Shown, IsReady};
ghost use Rattle.split_safety.specs.Runs.{is_plain};
ghost use Rattle.mote_exec.specs.Steps.{IsStepIn, StepsTo};

use crate::constants::constant;
use crate::jumps::{goto, jump_if_compared, jump_if_zero};
use crate::locals::{clear, increment, load, store};
use crate::numbers::{binary, negate};
use crate::operands::{drop_below, pop};
use crate::reference_tests::jump_if_reference;
use crate::references::{null, pop_refs};
use crate::shuffles::{duplicate, duplicate_refs, swap, swap_refs};
use crate::small::{extend_byte, extend_sign, extend_zero, keep_bit};
use crate::statics::{get_static, put_static};
use crate::switches::choose;
use image_check::Checked;
use image_instr::{MInsn, Width, decode_known};
use mote_model::{State, Turn};

/// Runs a plain instruction of the code, behind which the code goes on at a pc.
fn step_behind(mote: &mut State, code: &[u8], insn: MInsn, next: u16, left: &mut u64) -> Turn
    ghost shown: { Shown }

    requires here { IsStepIn shown mote.old code.now insn next }
    requires plain { is_plain insn ≡ true }
    ensures { StepsTo shown mote.old mote.new left.old left.new result }
{
    match insn {
        MInsn::Const1 { value } => constant(mote, next, Width::One, i32::from(value)),
        MInsn::Const2 { value } => constant(mote, next, Width::Two, value),
        MInsn::Small1 { value } => constant(mote, next, Width::One, i32::from(value)),
        MInsn::Small2 { value } => constant(mote, next, Width::Two, i32::from(value)),
        MInsn::Mid2 { value } => constant(mote, next, Width::Two, i32::from(value)),
        MInsn::Null => null(mote, next),
        MInsn::Load { kind, local } => load(mote, next, kind, local),
        MInsn::Store { kind, local } => store(mote, next, kind, local),
        MInsn::RClear { local } => clear(mote, next, local),
        MInsn::Inc {
            width,
            local,
            amount,
        } => increment(mote, next, width, local, amount),
        MInsn::RDupX { m, n } => duplicate_refs(mote, next, m, n),
        MInsn::DupX { m, n } => duplicate(mote, next, m, n),
        MInsn::RPop { count } => pop_refs(mote, next, count),
        MInsn::Pop { count } => pop(mote, next, u16::from(count)),
        MInsn::RSwap => swap_refs(mote, next),
        MInsn::Swap { m, n } => swap(mote, next, m, n),
        MInsn::Drop { above } => drop_below(mote, next, above),
        MInsn::Bin { width, operation } => binary(mote, next, width, operation),
        MInsn::Neg { width } => negate(mote, next, width),
        MInsn::Sx => extend_sign(mote, next),
        MInsn::Zx => extend_zero(mote, next),
        MInsn::Sb => extend_byte(mote, next),
        MInsn::Bit => keep_bit(mote, next),
        MInsn::Jz {
            width,
            condition,
            target,
        } => jump_if_zero(mote, next, width, condition, target, left),
        MInsn::JCmp {
            width,
            condition,
            target,
        } => jump_if_compared(mote, next, width, condition, target, left),
        MInsn::RJ { test, target } => jump_if_reference(mote, next, test, target, left),
        MInsn::Goto { target } => goto(mote, next, target, left),
        MInsn::Switch { width, .. } => choose(mote, code, width, left),
        MInsn::Table { width, .. } => choose(mote, code, width, left),
        MInsn::GetS { kind, place } => get_static(mote, next, kind, place),
        MInsn::PutS { kind, place } => put_static(mote, next, kind, place),
        _ => unreachable!(),
    }
}

/// Runs the instruction at the pc of the youngest frame of a mote, one of whole numbers, locals, operands, jumps or
/// statics. A jump to a pc that is not after it takes one of the ticks that are left. Where none is left, or where it
/// throws, nothing is changed.
pub fn step_plain(mote: &mut State, checked: &Checked, insn: MInsn, left: &mut u64) -> Turn
    ghost shown: { Shown }

    requires image { shown.image ≡ checked.now }
    requires ready { IsReady shown mote.old insn }
    requires plain { is_plain insn ≡ true }
    ensures { StepsTo shown mote.old mote.new left.old left.new result }
{
    let code = checked.code(mote.region.method_at(0));
    let pc = usize::from(mote.region.pc_at(0));
    let (_, size) = decode_known(code, pc);
    let next = (pc + size) as u16;
    step_behind(mote, code, insn, next, left)
}
