//! The code of a method: the offsets of its instructions first, then its bytes.

ghost use Rattle.std.specs.Prelude.{◌≡◌, ℕ, ◌+◌, ◌<◌, ◌≤◌, ◌^◌, ◌++◌, length, get_or, slice_get, option_map, IfSome, IfOk, IfErr, OnOk};
ghost use Rattle.std.specs.List.{flat_map};
ghost use Rattle.jvm_model.specs.ImageEmission.{bytes_at, size_at, fill_bytes, offset_of, code_of, most_code_bytes};
ghost use Rattle.jvm_model.specs.WidthsShapes.{pc_after};
ghost use Rattle.expansion.specs.Expanding.{KeepsCounts};
ghost use Rattle.expansion.specs.Seen.{KeepsRows};
ghost use Rattle.infuse_emit.specs.Instruction.{Seen};
ghost use Rattle.infuse_emit.specs.Offsets.{offset_in};
ghost use Rattle.infuse_emit.specs.Parts.{source_in, AreParts, KeepLimits, IsTooLong, seen_in};

use crate::instruction::emit_instruction;
use crate::numbers::numbers_of;
use crate::offsets::rows_of;
use crate::parts::Parts;
use crate::refusal::EmitRefusal;
use crate::shapes::around;
use body_form::Op;
use std::alloc::{AllocError, Global};

/// The most bytes of a method's code.
const MOST_CODE_BYTES: u32 = 65_535;

/// The pc of the instruction behind an index.
fn next_pc(ops: &[(u32, Op)], index: usize) -> Option<u32>
    requires { index < length ops.now }
    ensures { result ≡ option_map (λ x. x.0) (slice_get ops.now (index + 1)) }
{
    match ops.get(index + 1) {
        Some(next) => Some(next.0),
        None => None,
    }
}

/// Appends the bytes of the instruction at a pc, where this is the pc of the next one, and these are the offsets of
/// instructions.
fn emit_at(
    alloc: Global,
    parts: &Parts<'_>,
    offsets: &[u32],
    pc: u32,
    op: &Op,
    next: Option<u32>,
    out: &mut Vec<u8>,
) -> Result<(), AllocError>
    ghost seen: { Seen }

    requires seen { seen ≡ seen_in parts.now offsets.now pc }
    requires parts { AreParts parts.now }
    requires fits { (pc : ℕ) → offset_in parts.now.body.now.ops offsets.now pc < 2 ^ 16 }
    requires keeps { KeepsCounts op.now × KeepsRows op.now }
    requires next { let body = parts.now.body.now in next ≡ pc_after body.ops pc }

    ensures { OnOk result (out.new.items ≡ out.old.items ++ bytes_at (source_in parts.now) (offset_in parts.now.body.now.ops offsets.now) (pc, op.now)) }
{
    let ops = parts.body.ops.as_slice();
    let around = around(alloc, parts, pc, next, op)?;
    let numbers = numbers_of(alloc, parts, offsets, op)?;
    let rows = rows_of(alloc, ops, offsets, op)?;
    emit_instruction(alloc, &around, numbers, &parts.body.result, op, &rows, out)
}

/// Appends the bytes of the instruction at an index, where these are the offsets of instructions.
fn emit_index(
    alloc: Global,
    parts: &Parts<'_>,
    offsets: &[u32],
    index: usize,
    out: &mut Vec<u8>,
) -> Result<(), AllocError>
    requires parts { AreParts parts.now }
    requires fits { (pc : ℕ) → offset_in parts.now.body.now.ops offsets.now pc < 2 ^ 16 }
    requires keep { KeepLimits parts.now.body.now }
    requires within { let body = parts.now.body.now in index < length body.ops }
    ensures { OnOk result (out.new.items ≡ out.old.items ++ bytes_at (source_in parts.now) (offset_in parts.now.body.now.ops offsets.now) (get_or parts.now.body.now.ops index (0, Op.Nop))) }
{
    let ops = parts.body.ops.as_slice();
    let next = next_pc(ops, index);
    let (pc, op) = &ops[index];
    emit_at(alloc, parts, offsets, *pc, op, next, out)
}

/// How many bytes the instruction at an index has; where jumps lead does not count for it.
fn size_of(alloc: Global, parts: &Parts<'_>, index: usize) -> Result<usize, AllocError>
    requires parts { AreParts parts.now }
    requires keep { KeepLimits parts.now.body.now }
    requires within { let body = parts.now.body.now in index < length body.ops }
    ensures { IfOk result (λ size. size ≡ size_at (source_in parts.now) (get_or parts.now.body.now.ops index (0, Op.Nop))) }
{
    let mut bytes = Vec::new(alloc);
    emit_index(alloc, parts, &[], index, &mut bytes)?;
    Ok(bytes.len())
}

/// The offset behind so many bytes, where it fits four bytes.
fn offset_behind(offset: u32, size: usize) -> Option<u32>
    ensures { IfSome result (λ behind. behind ≡ offset + size) }
{
    match u32::try_from(size) {
        Ok(size) => offset.checked_add(size),
        Err(_) => None,
    }
}

/// The offsets of the instructions and of the code's end, where the first instruction has this one. Where the end is past
/// 65,535 the code is too long. An end past 32 bits, which the code of a class file does not reach, is want of memory.
pub(crate) fn offsets_of(
    alloc: Global,
    parts: &Parts<'_>,
    first: u32,
) -> Result<Vec<u32>, EmitRefusal>
    requires parts { AreParts parts.now }
    requires keep { KeepLimits parts.now.body.now }
    requires first { first ≡ length (fill_bytes (source_in parts.now)) }
    ensures told { IfOk result (λ offsets. (pc : ℕ) → offset_in parts.now.body.now.ops offsets.items pc ≡ offset_of (source_in parts.now) pc) }
    ensures fits { IfOk result (λ offsets. length (code_of (source_in parts.now)) ≤ most_code_bytes) }
    ensures small { IfOk result (λ offsets. (pc : ℕ) → offset_in parts.now.body.now.ops offsets.items pc < 2 ^ 16) }
    ensures refused { IfErr result (λ why. IsTooLong (source_in parts.now) why) }
{
    let mut offsets = Vec::new(alloc);
    let mut offset = first;
    for index in 0..parts.body.ops.as_slice().len() {
        offsets.push(offset)?;
        let size = size_of(alloc, parts, index)?;
        offset = match offset_behind(offset, size) {
            Some(behind) => behind,
            None => return Err(EmitRefusal::Memory),
        };
    }
    offsets.push(offset)?;
    if offset > MOST_CODE_BYTES {
        return Err(EmitRefusal::CodeTooLong {
            method: parts.body.method,
            length: offset,
        });
    }
    Ok(offsets)
}

/// Appends the bytes of all instructions, by the offsets of pcs.
fn write_all(
    alloc: Global,
    parts: &Parts<'_>,
    offsets: &[u32],
    out: &mut Vec<u8>,
) -> Result<(), AllocError>
    requires parts { AreParts parts.now }
    requires fits { (pc : ℕ) → offset_in parts.now.body.now.ops offsets.now pc < 2 ^ 16 }
    requires keep { KeepLimits parts.now.body.now }
    ensures { OnOk result (out.new.items ≡ out.old.items ++ flat_map (bytes_at (source_in parts.now) (offset_in parts.now.body.now.ops offsets.now)) parts.now.body.now.ops) }
{
    for index in 0..parts.body.ops.as_slice().len() {
        match emit_index(alloc, parts, offsets, index, out) {
            Ok(()) => {}
            Err(why) => return Err(why),
        }
    }
    Ok(())
}

/// Appends the code behind what extends parameters.
pub(crate) fn write_code(
    alloc: Global,
    parts: &Parts<'_>,
    offsets: &[u32],
    out: &mut Vec<u8>,
) -> Result<(), AllocError>
    requires parts { AreParts parts.now }
    requires fits { (pc : ℕ) → offset_in parts.now.body.now.ops offsets.now pc < 2 ^ 16 }
    requires told { (pc : ℕ) → offset_in parts.now.body.now.ops offsets.now pc ≡ offset_of (source_in parts.now) pc }
    requires keep { KeepLimits parts.now.body.now }
    requires begun { out.old.items ≡ fill_bytes (source_in parts.now) }
    ensures { OnOk result (out.new.items ≡ code_of (source_in parts.now)) }
{
    write_all(alloc, parts, offsets, out)
}
