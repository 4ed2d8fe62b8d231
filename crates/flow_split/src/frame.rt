//! The frame of a method.

ghost use Rattle.std.specs.Prelude.{◌≡◌, ◌≤◌, ◌+◌, map, length, IfOk, IfErr, IfSome};
ghost use Rattle.jvm_model.specs.TypesRight.{Table};
ghost use Rattle.jvm_model.specs.WidthsShapes.{local_width, widths_of};
ghost use Rattle.jvm_model.specs.WidthsSlots.{locals_of};
ghost use Rattle.jvm_model.specs.WidthsFrame.{frame_cells, most_frame_cells, most_in, plan_of};
ghost use Rattle.type_table.specs.Types.{table_of};
ghost use Rattle.flow_split.specs.Measures.{AreFew, IsMeasured, cells_measured};
ghost use Rattle.flow_split.specs.Splits.{AreEntries, AreNamed, AreRows, IsTooLarge};
ghost use Rattle.flow_split.specs.Shares.{cell_shares_of, total_in};

use crate::cells::{cell_shares, cells};
use crate::fill_cells::fill_cells;
use crate::fills::fills;
use crate::refusal::SplitRefusal;
use crate::shares::{Share, total};
use crate::slots::{slot_shares, slots};
use crate::walk::most_anywhere;
use crate::widths::local_widths;
use body_form::Body;
use image_instr::Width;
use item_list::Items;
use jvm_model::{Entry, Narrow, Plan};
use std::alloc::Global;
use type_table::{Memory, Types};

/// The most cells of a frame.
const MOST_FRAME_CELLS: u32 = 32_767;

/// What each local takes of the slots and of the cells of a frame, and the greatest number of operand cells.
#[derive(Debug, Drop)]
pub(crate) struct Measured {
    pub(crate) slots: Vec<Share>,
    pub(crate) cells: Vec<Share>,
    pub(crate) most: u64,
}

/// How many locals there are.
fn local_count(body: &Body) -> u16
    ensures { result ≡ body.now.max_locals }
{
    body.max_locals
}

/// The greatest number of operand cells at any point, where these are the widths of the locals and what they take of
/// the cells.
fn most_operand_cells(
    alloc: Global,
    body: &Body,
    types: &Types,
    narrow: &[Entry],
    widths: &[Width],
    cells: &[Share],
) -> Result<u64, Memory>
    requires rows { AreRows body.now types.now }
    requires entries { AreEntries types.now narrow.now }
    requires named { AreNamed body.now types.now }
    requires widths { widths.now ≡ map (local_width narrow.now (table_of types.now) body.now.ops) (locals_of body.now) }
    requires cells { cells.now ≡ cell_shares_of body.now (widths_of narrow.now (table_of types.now) body.now.ops) }
    requires few { length cells.now ≤ 65535 }
    ensures { IfOk result (λ most. most ≡ most_in body.now (widths_of narrow.now (table_of types.now) body.now.ops) (table_of types.now)) }
{
    let most = most_anywhere(alloc, body, types, narrow, widths)?;
    Ok(fill_cells(cells).max(most))
}

/// Measures what the frame of a method takes.
fn measure(alloc: Global, body: &Body, types: &Types, narrow: &[Entry]) -> Result<Measured, Memory>
    requires rows { AreRows body.now types.now }
    requires entries { AreEntries types.now narrow.now }
    requires named { AreNamed body.now types.now }
    ensures is { IfOk result (IsMeasured body.now (table_of types.now) (widths_of narrow.now (table_of types.now) body.now.ops)) }
    ensures few { IfOk result AreFew }
    ensures size { IfOk result (λ measured. length measured.cells.items ≡ body.now.max_locals) }
{
    let _count = local_count(body);
    let widths = local_widths(alloc, body, types, narrow)?;
    let slots = slot_shares(alloc, body)?;
    let cells = cell_shares(alloc, body, &widths)?;
    let most = most_operand_cells(alloc, body, types, narrow, &widths, &cells)?;
    Ok(Measured { slots, cells, most })
}

/// How many cells the frame has; `None` where a number does not fit.
fn frame_total(measured: &Measured) -> Option<u32>
    requires { AreFew measured.now }
    ensures { IfSome result (λ total. total ≡ cells_measured measured.now) }
{
    let locals = u64::from(total(&measured.slots)) + u64::from(total(&measured.cells));
    match measured.most.checked_add(4 + locals) {
        Some(cells) => u32::try_from(cells).ok(),
        None => None,
    }
}

/// A copy of the whole numbers of one cell.
fn copied(alloc: Global, narrow: &[Entry]) -> Result<Narrow, Memory>
    ensures { IfOk result (λ copy. copy ≡ narrow.now) }
{
    let mut copy = Vec::new(alloc);
    copy.extend_from_slice(narrow)?;
    Ok(Items::from_vec(copy))
}

/// The frame by what is measured, where it is not too large.
fn laid_out(
    alloc: Global,
    body: &Body,
    narrow: &[Entry],
    measured: &Measured,
) -> Result<Plan, Memory>
    requires few { AreFew measured.now }
    requires size { length measured.now.cells.items ≡ body.now.max_locals }
    requires small { cells_measured measured.now ≤ most_frame_cells }
    ensures { IfOk result (λ plan. (table : Table) → IsMeasured body.now table (widths_of narrow.now table body.now.ops) measured.now → plan ≡ plan_of body.now table narrow.now) }
{
    let refs = slots(alloc, &measured.slots)?;
    let places = cells(alloc, &measured.cells)?;
    let fills = fills(alloc, body, &measured.cells)?;
    let narrow = copied(alloc, narrow)?;
    let ref_locals = total(&measured.slots) as u16;
    let cell_locals = total(&measured.cells) as u16;
    let most = measured.most as u16;
    Ok(Plan {
        narrow,
        refs: Items::from_vec(refs),
        cells: Items::from_vec(places),
        fills: Items::from_vec(fills),
        ref_locals,
        cell_locals,
        body: ref_locals + (cell_locals + most),
    })
}

/// Lays out the frame of a method whose types are these, where the whole numbers in a list have one cell and all others
/// two: the list is in order, each entry once, and each is an int before an instruction that has types. A frame of more
/// than 32,767 cells, its header of four among them, is refused with the number of its cells. `Memory` answers want of
/// memory, and a number of cells that does not fit 32 bits.
pub fn split(
    alloc: Global,
    body: &Body,
    types: &Types,
    narrow: &Narrow,
) -> Result<Plan, SplitRefusal>
    requires rows { AreRows body.now types.now }
    requires entries { AreEntries types.now narrow.now }
    requires named { AreNamed body.now types.now }
    ensures plan { IfOk result (λ plan. plan ≡ plan_of body.now (table_of types.now) narrow.now) }
    ensures fits { IfOk result (λ plan. frame_cells body.now (widths_of narrow.now (table_of types.now) body.now.ops) (table_of types.now) ≤ most_frame_cells) }
    ensures refused { IfErr result (IsTooLarge body.now (table_of types.now) narrow.now) }
{
    let entries = narrow.as_slice();
    let Ok(measured) = measure(alloc, body, types, entries) else {
        return Err(SplitRefusal::Memory);
    };
    let Some(cells) = frame_total(&measured) else {
        return Err(SplitRefusal::Memory);
    };
    if cells > MOST_FRAME_CELLS {
        return Err(SplitRefusal::FrameTooLarge {
            method: body.method,
            cells,
        });
    }
    match laid_out(alloc, body, entries, &measured) {
        Ok(plan) => Ok(plan),
        Err(_) => Err(SplitRefusal::Memory),
    }
}
