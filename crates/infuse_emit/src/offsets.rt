//! The offsets of pcs.

ghost use Rattle.std.specs.Prelude.{◌≡◌, ℕ, ◌<◌, ◌^◌, map, IfOk};
ghost use Rattle.std.specs.List.{AllByRecursion};
ghost use Rattle.code_reach.specs.Reached.{RisesFrom};
ghost use Rattle.jvm_model.specs.ImageExpansion.{moved_row};
ghost use Rattle.expansion.specs.Seen.{rows_at};
ghost use Rattle.infuse_emit.specs.Offsets.{starts_below as starts_below_of, offset_in};

use body_form::Op;
use image_instr::SwitchRow;
use insn_form::SwitchRow as PcRow;
use std::alloc::{AllocError, Global};

/// How many of these instructions have a pc below this one.
fn starts_below(ops: &[(u32, Op)], pc: u32) -> usize
    requires { RisesFrom 0 ops.now }
    ensures { result ≡ starts_below_of ops.now pc }
{
    ops.partition_point(|x| x.0 < pc)
}

/// The offset of a pc in bytes, by the offsets of the instructions and of the end, which may be none.
pub(crate) fn offset_at(ops: &[(u32, Op)], offsets: &[u32], pc: u32) -> u16
    requires rise { RisesFrom 0 ops.now }
    requires fits { offset_in ops.now offsets.now pc < 2 ^ 16 }
    ensures { result ≡ offset_in ops.now offsets.now pc }
{
    match offsets.get(starts_below(ops, pc)) {
        Some(offset) => *offset as u16,
        None => 0,
    }
}

/// The rows of a switch, each with the offset of its target.
fn moved_rows(
    alloc: Global,
    ops: &[(u32, Op)],
    offsets: &[u32],
    rows: &[PcRow],
) -> Result<Vec<SwitchRow>, AllocError>
    requires rise { RisesFrom 0 ops.now }
    requires fits { (pc : ℕ) → offset_in ops.now offsets.now pc < 2 ^ 16 }
    ensures { IfOk result (λ moved. moved.items ≡ map (moved_row (offset_in ops.now offsets.now)) rows.now) }
{
    let mut moved = Vec::new(alloc);
    for row in rows {
        moved.push(SwitchRow {
            key: row.key,
            target: offset_at(ops, offsets, row.target),
        })?;
    }
    Ok(moved)
}

/// The rows of the machine instructions of an instruction.
pub(crate) fn rows_of(
    alloc: Global,
    ops: &[(u32, Op)],
    offsets: &[u32],
    op: &Op,
) -> Result<Vec<SwitchRow>, AllocError>
    requires rise { RisesFrom 0 ops.now }
    requires fits { (pc : ℕ) → offset_in ops.now offsets.now pc < 2 ^ 16 }
    ensures { IfOk result (λ rows. rows.items ≡ rows_at (offset_in ops.now offsets.now) op.now) }
{
    match op {
        Op::Switch { rows, .. } => moved_rows(alloc, ops, offsets, rows.as_slice()),
        _ => Ok(Vec::new(alloc)),
    }
}
