//! An instruction is appended to code, with its rows.

ghost use Rattle.std.specs.Prelude.{◌≡◌, ◌+◌, ◌*◌, ◌<◌, ◌≤◌, [], ◌∷◌, ◌++◌, length, take, vec_len, All, OnOk, OnErr};
ghost use Rattle.std.specs.List.{flat_map};
ghost use Rattle.image_instr.specs.Insn.{u2, i1, i2, i4, index as index_bytes, halves as halves_bytes, row_bytes, target_bytes, insn_bytes, KeepsLimits, AreRowsOf, HasRanges, HasRowRanges, IsInsn};

use crate::code::*;
use crate::insn::{MInsn, SwitchRow};
use crate::opcode::*;
use byteorder::{BigEndian, ByteOrder};
use std::alloc::{AllocError, Global};

/// Want of memory.
pub type Memory = AllocError;

fn bare(opcode: u8, out: &mut Vec<u8>) -> Result<(), Memory>
    ensures ok { OnOk result (out.new.items ≡ out.old.items ++ (opcode ∷ [])) }
    ensures err { OnErr result (out.new.items ≡ out.old.items) }
{
    out.extend_from_slice(&[opcode])
}

fn byte(opcode: u8, operand: u8, out: &mut Vec<u8>) -> Result<(), Memory>
    ensures ok { OnOk result (out.new.items ≡ out.old.items ++ (opcode ∷ operand ∷ [])) }
    ensures err { OnErr result (out.new.items ≡ out.old.items) }
{
    out.extend_from_slice(&[opcode, operand])
}

fn short(opcode: u8, operand: u16, out: &mut Vec<u8>) -> Result<(), Memory>
    ensures ok { OnOk result (out.new.items ≡ out.old.items ++ (opcode ∷ u2 operand)) }
    ensures err { OnErr result (out.new.items ≡ out.old.items) }
{
    let mut bytes = [opcode; 3];
    BigEndian::write_u16(&mut bytes[1..], operand);
    out.extend_from_slice(&bytes)
}

fn int(opcode: u8, operand: i32, out: &mut Vec<u8>) -> Result<(), Memory>
    ensures ok { OnOk result (out.new.items ≡ out.old.items ++ (opcode ∷ i4 operand)) }
    ensures err { OnErr result (out.new.items ≡ out.old.items) }
{
    let mut bytes = [opcode; 5];
    BigEndian::write_u32(&mut bytes[1..], operand.cast_unsigned());
    out.extend_from_slice(&bytes)
}

fn index(opcode: u8, operand: u16, out: &mut Vec<u8>) -> Result<(), Memory>
    ensures ok { OnOk result (out.new.items ≡ out.old.items ++ (opcode ∷ index_bytes operand)) }
    ensures err { OnErr result (out.new.items ≡ out.old.items) }
{
    if operand < 255 {
        return out.extend_from_slice(&[opcode, operand as u8]);
    }
    let mut bytes = [opcode, 255, 0, 0];
    BigEndian::write_u16(&mut bytes[2..], operand);
    out.extend_from_slice(&bytes)
}

fn index_short(opcode: u8, operand: u16, amount: i16, out: &mut Vec<u8>) -> Result<(), Memory>
    ensures ok { OnOk result (out.new.items ≡ out.old.items ++ (opcode ∷ (index_bytes operand ++ i2 amount))) }
    ensures err { OnErr result (out.new.items ≡ out.old.items) }
{
    if operand < 255 {
        let mut bytes = [opcode, operand as u8, 0, 0];
        BigEndian::write_u16(&mut bytes[2..], amount.cast_unsigned());
        return out.extend_from_slice(&bytes);
    }
    let mut bytes = [opcode, 255, 0, 0, 0, 0];
    BigEndian::write_u16(&mut bytes[2..], operand);
    BigEndian::write_u16(&mut bytes[4..], amount.cast_unsigned());
    out.extend_from_slice(&bytes)
}

fn halves(opcode: u8, m: u8, n: u8, out: &mut Vec<u8>) -> Result<(), Memory>
    requires { (m < 16) × (n < 16) }
    ensures ok { OnOk result (out.new.items ≡ out.old.items ++ (opcode ∷ halves_bytes m n)) }
    ensures err { OnErr result (out.new.items ≡ out.old.items) }
{
    out.extend_from_slice(&[opcode, m * 16 + n])
}

fn short_byte(opcode: u8, operand: u16, count: u8, out: &mut Vec<u8>) -> Result<(), Memory>
    ensures ok { OnOk result (out.new.items ≡ out.old.items ++ (opcode ∷ (u2 operand ++ count ∷ []))) }
    ensures err { OnErr result (out.new.items ≡ out.old.items) }
{
    let mut bytes = [opcode, 0, 0, count];
    BigEndian::write_u16(&mut bytes[1..], operand);
    out.extend_from_slice(&bytes)
}

fn two_shorts(opcode: u8, first: u16, second: u16, out: &mut Vec<u8>) -> Result<(), Memory>
    ensures ok { OnOk result (out.new.items ≡ out.old.items ++ (opcode ∷ (u2 first ++ u2 second))) }
    ensures err { OnErr result (out.new.items ≡ out.old.items) }
{
    let mut bytes = [opcode; 5];
    BigEndian::write_u16(&mut bytes[1..], first);
    BigEndian::write_u16(&mut bytes[3..], second);
    out.extend_from_slice(&bytes)
}

fn table_head(
    opcode: u8,
    default: u16,
    low: i32,
    count: u16,
    out: &mut Vec<u8>,
) -> Result<(), Memory>
    ensures ok { OnOk result (out.new.items ≡ out.old.items ++ (opcode ∷ (u2 default ++ (i4 low ++ u2 count)))) }
    ensures err { OnErr result (out.new.items ≡ out.old.items) }
{
    let mut bytes = [opcode; 9];
    BigEndian::write_u16(&mut bytes[1..], default);
    BigEndian::write_u32(&mut bytes[3..], low.cast_unsigned());
    BigEndian::write_u16(&mut bytes[7..], count);
    out.extend_from_slice(&bytes)
}

/// Appends a row: its key and its target.
fn row(row: SwitchRow, out: &mut Vec<u8>) -> Result<(), Memory>
    ensures ok { OnOk result (out.new.items ≡ out.old.items ++ row_bytes row) }
    ensures ranges { HasRowRanges row }
    ensures err { OnErr result (out.new.items ≡ out.old.items) }
{
    let mut bytes = [0; 6];
    BigEndian::write_u32(&mut bytes, row.key.cast_unsigned());
    BigEndian::write_u16(&mut bytes[4..], row.target);
    out.extend_from_slice(&bytes)
}

/// Appends the target of a row.
fn target(row: SwitchRow, out: &mut Vec<u8>) -> Result<(), Memory>
    ensures ok { OnOk result (out.new.items ≡ out.old.items ++ target_bytes row) }
    ensures ranges { HasRowRanges row }
    ensures err { OnErr result (out.new.items ≡ out.old.items) }
{
    let mut bytes = [0; 2];
    BigEndian::write_u16(&mut bytes, row.target);
    out.extend_from_slice(&bytes)
}

/// Appends rows; a refusal may leave some of them.
fn all_rows(rows: &[SwitchRow], out: &mut Vec<u8>) -> Result<(), Memory>
    ensures ok { OnOk result (out.new.items ≡ out.old.items ++ flat_map row_bytes rows.now) }
    ensures ranges { OnOk result (All HasRowRanges rows.now) }
    ensures err { OnErr result (take (vec_len out.old) out.new.items ≡ out.old.items) }
{
    for each in rows {
        row(*each, out)?;
    }
    Ok(())
}

/// Appends the targets of rows; a refusal may leave some of them.
fn all_targets(rows: &[SwitchRow], out: &mut Vec<u8>) -> Result<(), Memory>
    ensures ok { OnOk result (out.new.items ≡ out.old.items ++ flat_map target_bytes rows.now) }
    ensures ranges { OnOk result (All HasRowRanges rows.now) }
    ensures err { OnErr result (take (vec_len out.old) out.new.items ≡ out.old.items) }
{
    for each in rows {
        target(*each, out)?;
    }
    Ok(())
}

/// Appends a switch with its rows.
fn switch(
    opcode: u8,
    default: u16,
    count: u16,
    rows: &[SwitchRow],
    out: &mut Vec<u8>,
) -> Result<(), Memory>
    ensures ok { OnOk result (out.new.items ≡ out.old.items ++ (opcode ∷ (u2 default ++ (u2 count ++ flat_map row_bytes rows.now)))) }
    ensures ranges { OnOk result (All HasRowRanges rows.now) }
    ensures err { OnErr result (out.new.items ≡ out.old.items) }
{
    let size = out.len();
    two_shorts(opcode, default, count, out)?;
    if let Err(memory) = all_rows(rows, out) {
        out.truncate(size);
        return Err(memory);
    }
    Ok(())
}

/// Appends a table with the targets of its rows.
fn table(
    opcode: u8,
    default: u16,
    low: i32,
    count: u16,
    rows: &[SwitchRow],
    out: &mut Vec<u8>,
) -> Result<(), Memory>
    ensures ok { OnOk result (out.new.items ≡ out.old.items ++ (opcode ∷ (u2 default ++ (i4 low ++ (u2 count ++ flat_map target_bytes rows.now))))) }
    ensures ranges { OnOk result (All HasRowRanges rows.now) }
    ensures err { OnErr result (out.new.items ≡ out.old.items) }
{
    let size = out.len();
    table_head(opcode, default, low, count, out)?;
    if let Err(memory) = all_targets(rows, out) {
        out.truncate(size);
        return Err(memory);
    }
    Ok(())
}

/// Appends the bytes of an instruction with its rows.
fn append(insn: MInsn, rows: &[SwitchRow], out: &mut Vec<u8>) -> Result<(), Memory>
    requires limits { KeepsLimits insn }
    requires rows_of { AreRowsOf insn rows.now }
    ensures ok { OnOk result (out.new.items ≡ out.old.items ++ insn_bytes insn rows.now) }
    ensures err { OnErr result (out.new.items ≡ out.old.items) }
    ensures ranges { HasRanges insn }
    ensures row_ranges { OnOk result (All HasRowRanges rows.now) }
{
    match insn {
        MInsn::Const1 { value } => short(CONST1, value.cast_unsigned(), out),
        MInsn::Const2 { value } => int(CONST2, value, out),
        MInsn::Small1 { value } => byte(SMALL1, value.cast_unsigned(), out),
        MInsn::Small2 { value } => byte(SMALL2, value.cast_unsigned(), out),
        MInsn::Mid2 { value } => short(MID2, value.cast_unsigned(), out),
        MInsn::Null => bare(NULL, out),
        MInsn::Load { kind, local } => index(load_code(kind), local, out),
        MInsn::Store { kind, local } => index(store_code(kind), local, out),
        MInsn::RClear { local } => index(RCLEAR, local, out),
        MInsn::Inc {
            width,
            local,
            amount,
        } => index_short(inc_code(width), local, amount, out),
        MInsn::RDupX { m, n } => halves(RDUPX, m, n, out),
        MInsn::DupX { m, n } => halves(DUPX, m, n, out),
        MInsn::RPop { count } => byte(RPOP, count, out),
        MInsn::Pop { count } => byte(POP, count, out),
        MInsn::RSwap => bare(RSWAP, out),
        MInsn::Swap { m, n } => halves(SWAP, m, n, out),
        MInsn::Drop { above } => index(DROP, above, out),
        MInsn::Bin { width, operation } => bare(bin_code(width) + operation_code(operation), out),
        MInsn::Neg { width } => bare(neg_code(width), out),
        MInsn::Sx => bare(SX, out),
        MInsn::Zx => bare(ZX, out),
        MInsn::Sb => bare(SB, out),
        MInsn::Bit => bare(BIT, out),
        MInsn::Jz {
            width,
            condition,
            target,
        } => short(jz_code(width) + condition_code(condition), target, out),
        MInsn::JCmp {
            width,
            condition,
            target,
        } => short(jcmp_code(width) + condition_code(condition), target, out),
        MInsn::RJ { test, target } => short(test_code(test), target, out),
        MInsn::Goto { target } => short(GOTO, target, out),
        MInsn::Switch {
            width,
            default,
            count,
        } => switch(switch_code(width), default, count, rows, out),
        MInsn::Table {
            width,
            default,
            low,
            count,
        } => table(table_code(width), default, low, count, rows, out),
        MInsn::Ret { result } => bare(ret_code(result), out),
        MInsn::GetS { kind, place } => index(get_static_code(kind), place, out),
        MInsn::PutS { kind, place } => index(put_static_code(kind), place, out),
        MInsn::GetF { kind, place } => index(get_field_code(kind), place, out),
        MInsn::PutF { kind, place } => index(put_field_code(kind), place, out),
        MInsn::NewArr { width, id } => short(new_array_code(width), id, out),
        MInsn::Multi { id, dims } => short_byte(MULTI, id, dims, out),
        MInsn::ALen => bare(ALEN, out),
        MInsn::ALoad { element, width } => bare(load_element_code(element, width), out),
        MInsn::AStore { element, width } => bare(store_element_code(element, width), out),
        MInsn::New { id } => short(NEW, id, out),
        MInsn::Cast { id } => short(CAST, id, out),
        MInsn::Inst { id } => short(INST, id, out),
        MInsn::Throw => bare(THROW, out),
        MInsn::CallS { method } => short(CALLS, method, out),
        MInsn::CallX { method } => short(CALLX, method, out),
        MInsn::CallV { selector } => short(CALLV, selector, out),
        MInsn::CallI { selector, id } => two_shorts(CALLI, selector, id, out),
    }
}

/// Appends the bytes of an instruction, with the rows of a switch. `decode_at` reads it again at the
/// place where it was appended.
pub fn encode(
    _alloc: Global,
    insn: MInsn,
    rows: &[SwitchRow],
    out: &mut Vec<u8>,
) -> Result<(), Memory>
    // The operands keep to the limits, and the rows are those of the instruction.
    requires limits { KeepsLimits insn }
    requires rows_of { AreRowsOf insn rows.now }

    ensures ok { OnOk result (out.new.items ≡ out.old.items ++ insn_bytes insn rows.now) }
    ensures is_insn { OnOk result (IsInsn insn rows.now) }
    ensures err { OnErr result (out.new.items ≡ out.old.items) }
{
    append(insn, rows, out)
}
