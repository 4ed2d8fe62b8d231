//! The natives of static methods: write, print and read. Each is a tick.

ghost use Rattle.std.specs.Prelude.{◌≡◌, ◌≤◌, ◌<◌, ◌+◌, ◌++◌, length, FitsSigned};
ghost use Rattle.std.specs.Int.{w32};
ghost use Rattle.image_instr.specs.declared.insn.MInsn.TheVariants as insns;
ghost use Rattle.image_instr.specs.declared.insn.Width.TheVariants as width;
ghost use Rattle.mote_stack.specs.Frames.{youngest_frame, without_last, HasFreeCells};
ghost use Rattle.mote_model.specs.SplitMoves.{cells_of};
ghost use Rattle.mote_exec.specs.Steps.{number_below, stepped};
ghost use Rattle.split_safety.specs.Ready.{Shown, IsReady};
ghost use Rattle.mote_call.specs.CallTurns.{CallTurn};
ghost use Rattle.mote_call.specs.Leaving.{IsInCode, behind};
ghost use Rattle.mote_call.specs.Shows.{Shows};

use crate::leave::pc_behind;
use crate::talk::{low_byte, read, show};
use cell_num::{join, split};
use host_face::{Console, ConsoleFailed};
use image_check::Checked;
use itoa::Buffer;
use mote_model::{Ending, State, Turn};
use mote_stack::Region;

/// The number on top.
fn top_number(region: &Region) -> i32
    requires frame { 0 < length region.now.frames }
    requires there { 2 ≤ length (youngest_frame region.now).cells }
    ensures value { result ≡ number_below width.Two 0 (youngest_frame region.now).cells }
    ensures fits { FitsSigned w32 result }
{
    let end = region.cell_depth();
    join(region.int_at(end - 2), region.int_at(end - 1))
}

/// Takes the number on top off, and goes on behind the call.
fn take_number(region: &mut Region, checked: &Checked)
    requires frame { 0 < length region.old.frames }
    requires there { 2 ≤ length (youngest_frame region.old).cells }
    requires in_code { IsInCode checked.now (youngest_frame region.old) }
    ensures { region.new ≡ stepped region.old (behind checked.now (youngest_frame region.old)) (youngest_frame region.old).refs (without_last 2 (youngest_frame region.old).cells) }
{
    let next = pc_behind(region, checked);
    let refs = region.ref_depth();
    let cells = region.cell_depth();
    region.trim(refs, cells - 2);
    region.set_pc(next);
}

/// Pushes a number, and goes on behind the call.
fn put_number(region: &mut Region, checked: &Checked, number: i32)
    requires frame { 0 < length region.old.frames }
    requires room { HasFreeCells region.old 2 }
    requires in_code { IsInCode checked.now (youngest_frame region.old) }
    ensures { region.new ≡ stepped region.old (behind checked.now (youngest_frame region.old)) (youngest_frame region.old).refs ((youngest_frame region.old).cells ++ cells_of width.Two number) }
{
    let next = pc_behind(region, checked);
    let (first, second) = split(number);
    region.push_cell(first);
    region.push_cell(second);
    region.set_pc(next);
}

/// Shows bytes for the number on top, which is taken off.
fn show_number<C: Console>(
    mote: &mut State,
    checked: &Checked,
    bytes: &[u8],
    console: &mut C,
    left: &mut u64,
) -> Turn
    ghost shown: { Shown }

    requires image { shown.image ≡ checked.now }
    requires shows { Shows shown mote.old bytes.now }
    ensures { CallTurn C.left C.shown C.noted C.faults C.room shown mote.old mote.new console.old console.new left.old left.new result }
{
    if *left == 0 {
        return Turn::Ends(Ending::Spent);
    }
    match show(console, bytes) {
        Ok(()) => {
            take_number(&mut mote.region, checked);
            *left -= 1;
            Turn::On
        }
        Err(ConsoleFailed) => Turn::Ends(Ending::ConsoleFault),
    }
}

/// write: the low eight bits of the number on top are shown.
pub(crate) fn write<C: Console>(
    mote: &mut State,
    checked: &Checked,
    console: &mut C,
    left: &mut u64,
) -> Turn
    ghost shown: { Shown }

    requires image { shown.image ≡ checked.now }
    requires ready { IsReady shown mote.old (insns.CallS 1) }
    ensures { CallTurn C.left C.shown C.noted C.faults C.room shown mote.old mote.new console.old console.new left.old left.new result }
{
    let byte = low_byte(top_number(&mote.region));
    show_number(mote, checked, &[byte], console, left)
}

/// print: the number on top is shown in decimal.
pub(crate) fn print<C: Console>(
    mote: &mut State,
    checked: &Checked,
    console: &mut C,
    left: &mut u64,
) -> Turn
    ghost shown: { Shown }

    requires image { shown.image ≡ checked.now }
    requires ready { IsReady shown mote.old (insns.CallS 3) }
    ensures { CallTurn C.left C.shown C.noted C.faults C.room shown mote.old mote.new console.old console.new left.old left.new result }
{
    let mut buffer = Buffer::new();
    let number = top_number(&mote.region);
    show_number(
        mote,
        checked,
        buffer.format(number).as_bytes(),
        console,
        left,
    )
}

/// read: the value of the next byte is pushed.
pub(crate) fn read_byte<C: Console>(
    mote: &mut State,
    checked: &Checked,
    console: &mut C,
    left: &mut u64,
) -> Turn
    ghost shown: { Shown }

    requires image { shown.image ≡ checked.now }
    requires ready { IsReady shown mote.old (insns.CallS 2) }
    ensures { CallTurn C.left C.shown C.noted C.faults C.room shown mote.old mote.new console.old console.new left.old left.new result }
{
    if *left == 0 {
        return Turn::Ends(Ending::Spent);
    }
    match read(console) {
        Ok(number) => {
            put_number(&mut mote.region, checked, number);
            *left -= 1;
            Turn::On
        }
        Err(ConsoleFailed) => Turn::Ends(Ending::ConsoleFault),
    }
}
