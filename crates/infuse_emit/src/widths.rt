//! The widths of locals.

ghost use Rattle.std.specs.Prelude.{◌≡◌, ℕ, false, nat_eq, get_or, OnOk, IfOk};
ghost use Rattle.std.specs.Option.{option_map_or};
ghost use Rattle.std.specs.List.{list_any};
ghost use Rattle.code_reach.specs.Reached.{RisesFrom};
ghost use Rattle.jvm_model.specs.WidthsShapes.{is_local_entry, stores_one, local_width};
ghost use Rattle.type_table.specs.Types.{Rows, table_of};
ghost use Rattle.infuse_emit.specs.Parts.{heights_in, AreRising, one_where};

use crate::shapes::height_at;
use body_form::Op;
use flow_split::has_entry;
use image_instr::Width;
use insn_form::ValueKind;
use jvm_model::Entry;
use std::alloc::{AllocError, Global};

/// Notes that a local has one cell.
fn note(widths: &mut Vec<Width>, local: u16) -> Result<(), AllocError>
    ensures { OnOk result ((at : ℕ) → get_or widths.new.items at Width.Two ≡ one_where (nat_eq local at) (get_or widths.old.items at Width.Two)) }
{
    let index = usize::from(local);
    if widths.len() <= index {
        widths.resize(index + 1, Width::Two)?;
    }
    widths[index] = Width::One;
    Ok(())
}

/// The local in which an instruction stores an int of one cell.
fn stored_one(heights: &[(u32, usize)], narrow: &[Entry], pc: u32, op: &Op) -> Option<u16>
    requires rise { RisesFrom 0 heights.now }
    requires order { AreRising narrow.now }
    ensures { (rows : Rows) → heights.now ≡ heights_in rows → (local : ℕ) → stores_one narrow.now (table_of rows) local (pc, op.now) ≡ option_map_or (λ stored. nat_eq stored local) result false }
{
    match op {
        Op::Store(ValueKind::Int, local) => {
            let place = height_at(heights, pc).saturating_sub(1);
            if has_entry(narrow, pc, true, place) {
                Some(*local)
            } else {
                None
            }
        }
        _ => None,
    }
}

/// Notes the locals that have an entry.
fn note_entries(widths: &mut Vec<Width>, narrow: &[Entry]) -> Result<(), AllocError>
    ensures { OnOk result ((local : ℕ) → get_or widths.new.items local Width.Two ≡ one_where (list_any (is_local_entry local) narrow.now) (get_or widths.old.items local Width.Two)) }
{
    for entry in narrow {
        if !entry.operand {
            note(widths, entry.place)?;
        }
    }
    Ok(())
}

/// Notes the locals in which ints of one cell are stored.
fn note_stores(
    widths: &mut Vec<Width>,
    heights: &[(u32, usize)],
    narrow: &[Entry],
    ops: &[(u32, Op)],
) -> Result<(), AllocError>
    requires rise { RisesFrom 0 heights.now }
    requires order { AreRising narrow.now }
    ensures { OnOk result ((rows : Rows) → heights.now ≡ heights_in rows → (local : ℕ) → get_or widths.new.items local Width.Two ≡ one_where (list_any (stores_one narrow.now (table_of rows) local) ops.now) (get_or widths.old.items local Width.Two)) }
{
    for x in ops {
        if let Some(local) = stored_one(heights, narrow, x.0, &x.1) {
            note(widths, local)?;
        }
    }
    Ok(())
}

/// The widths of locals by their index, as far as there is one of one cell.
pub(crate) fn local_widths(
    alloc: Global,
    heights: &[(u32, usize)],
    narrow: &[Entry],
    ops: &[(u32, Op)],
) -> Result<Vec<Width>, AllocError>
    requires rise { RisesFrom 0 heights.now }
    requires order { AreRising narrow.now }
    ensures { IfOk result (λ widths. (rows : Rows) → heights.now ≡ heights_in rows → (local : ℕ) → get_or widths.items local Width.Two ≡ local_width narrow.now (table_of rows) ops.now local) }
{
    let mut widths = Vec::new(alloc);
    note_entries(&mut widths, narrow)?;
    note_stores(&mut widths, heights, narrow, ops)?;
    Ok(widths)
}
