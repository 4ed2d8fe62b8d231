//! A frame that returns leaves, and its caller goes on behind its call.

ghost use Rattle.std.specs.Prelude.{◌≡◌, ◌<◌, ◌≤◌, ◌∷◌, [], length};
ghost use Rattle.mote_stack.specs.Frames.{youngest_frame, last_items};
ghost use Rattle.mote_call.specs.Leaving.{IsInCode, HasCaller, HasRoom, behind, returned};

use image_check::Checked;
use image_instr::decode_known;
use mote_stack::Region;

/// The pc behind the instruction at the pc of the youngest frame.
pub(crate) fn pc_behind(region: &Region, checked: &Checked) -> u16
    requires frame { 0 < length region.now.frames }
    requires in_code { IsInCode checked.now (youngest_frame region.now) }
    ensures { result ≡ behind checked.now (youngest_frame region.now) }
{
    let pc = region.pc_at(0);
    let (_, size) = decode_known(checked.code(region.method_at(0)), usize::from(pc));
    pc + size as u16
}

/// Removes the youngest frame. Its caller goes on behind its call.
pub(crate) fn leave(region: &mut Region, checked: &Checked)
    requires { HasCaller checked.now region.old }
    ensures { region.new ≡ returned checked.now region.old [] [] }
{
    region.pop_frame();
    let next = pc_behind(region, checked);
    region.set_pc(next);
}

/// Does the same with the reference on top as the result.
pub(crate) fn leave_ref(region: &mut Region, checked: &Checked)
    requires caller { HasCaller checked.now region.old }
    requires there { 1 ≤ length (youngest_frame region.old).refs }
    requires room { HasRoom region.old 1 }
    ensures { region.new ≡ returned checked.now region.old (last_items 1 (youngest_frame region.old).refs) [] }
{
    let reference = top_ref(region);
    leave(region, checked);
    region.push_ref(reference);
}

/// Does the same with the cell on top as the result.
pub(crate) fn leave_cell(region: &mut Region, checked: &Checked)
    requires caller { HasCaller checked.now region.old }
    requires there { 1 ≤ length (youngest_frame region.old).cells }
    requires room { HasRoom region.old 1 }
    ensures { region.new ≡ returned checked.now region.old [] (last_items 1 (youngest_frame region.old).cells) }
{
    let cell = top_cell(region);
    leave(region, checked);
    region.push_cell(cell);
}

/// Does the same with the two cells on top as the result.
pub(crate) fn leave_pair(region: &mut Region, checked: &Checked)
    requires caller { HasCaller checked.now region.old }
    requires there { 2 ≤ length (youngest_frame region.old).cells }
    requires room { HasRoom region.old 2 }
    ensures { region.new ≡ returned checked.now region.old [] (last_items 2 (youngest_frame region.old).cells) }
{
    let (low, high) = top_pair(region);
    leave(region, checked);
    region.push_cell(low);
    region.push_cell(high);
}

/// The reference on top.
fn top_ref(region: &Region) -> u16
    requires frame { 0 < length region.now.frames }
    requires there { 1 ≤ length (youngest_frame region.now).refs }
    ensures { result ∷ [] ≡ last_items 1 (youngest_frame region.now).refs }
{
    region.ref_at(region.ref_depth() - 1)
}

/// The cell on top.
fn top_cell(region: &Region) -> u16
    requires frame { 0 < length region.now.frames }
    requires there { 1 ≤ length (youngest_frame region.now).cells }
    ensures { result ∷ [] ≡ last_items 1 (youngest_frame region.now).cells }
{
    region.int_at(region.cell_depth() - 1)
}

/// The two cells on top, the lower one first.
fn top_pair(region: &Region) -> (u16, u16)
    requires frame { 0 < length region.now.frames }
    requires there { 2 ≤ length (youngest_frame region.now).cells }
    ensures { result.0 ∷ result.1 ∷ [] ≡ last_items 2 (youngest_frame region.now).cells }
{
    let end = region.cell_depth();
    (region.int_at(end - 2), region.int_at(end - 1))
}
