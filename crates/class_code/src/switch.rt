//! tableswitch and lookupswitch.

ghost use Rattle.std.specs.Prelude.{◌≡◌, ◌≤◌, ◌+ℤ◌, ◌<ℤ◌, ◌≤ℤ◌, ◌^◌, pos};
ghost use Rattle.class_code.specs.Operands.{Gives};
ghost use Rattle.class_code.specs.Table.{are_zero, padding_at, table_rows, span, tableswitch, is_above, lookup_row, lookup_rows, lookupswitch};

use crate::insn::Insn;
use crate::operand::{far_target_at, i4_at, slice_at};
use crate::refusal::Fault;
use insn_form::{SwitchForm, SwitchRow};
use item_list::Items;
use std::alloc::Global;

/// Whether each byte is 0.
fn are_zero(bytes: &[u8]) -> bool
    ensures { result ≡ are_zero bytes.now }
{
    match bytes {
        [] => true,
        [byte, rest @ ..] => *byte == 0 && are_zero(rest),
    }
}

/// The bytes after the padding of a switch at `pc`, which is of zeros, up to a multiple of four.
#[tactic(auto, unfolding(crate::specs::Table::padding_at))]
fn padding_at(pc: u32, operands: &[u8]) -> Result<&[u8], Fault>
    ensures { Gives (λ x. x.now) result (padding_at pc operands.now) }
{
    let (padding, rest) = slice_at(3 - (pc % 4) as usize, operands)?;
    if !are_zero(padding) {
        return Err(Fault::BadCode);
    }
    Ok(rest)
}

/// The key so many places after the first.
fn key_of(low: i32, index: usize) -> i32
    requires { (low +ℤ pos index) <ℤ pos (2 ^ 31) }
    ensures { result ≡ low +ℤ pos index }
{
    (i64::from(low) + index as i64) as i32
}

/// So many targets, of the keys from `low` on.
fn table_rows(
    alloc: Global,
    pc: u32,
    low: i32,
    count: usize,
    bytes: &[u8],
) -> Result<(Vec<SwitchRow>, &[u8]), Fault>
    requires { (low +ℤ pos count) ≤ℤ pos (2 ^ 31) }
    ensures { Gives (λ x. (x.0.items, x.1.now)) result (table_rows pc low 0 count bytes.now) }
{
    let mut rows = Vec::new(alloc);
    let mut rest = bytes;
    for index in 0..count {
        let (target, after) = far_target_at(pc, rest)?;
        let key = key_of(low, index);
        rows.push(SwitchRow { key, target })?;
        rest = after;
    }
    Ok((rows, rest))
}

/// How many keys there are from `low` to `high`.
fn span(low: i32, high: i32) -> usize
    requires { low ≤ℤ high }
    ensures value { result ≡ span low high }
    ensures last { (low +ℤ pos result) ≤ℤ pos (2 ^ 31) }
{
    (i64::from(high) - i64::from(low)) as usize + 1
}

/// tableswitch.
#[tactic(auto, unfolding(crate::specs::Table::tableswitch))]
pub(crate) fn tableswitch(alloc: Global, pc: u32, operands: &[u8]) -> Result<(Insn, &[u8]), Fault>
    ensures { Gives (λ x. (x.0, x.1.now)) result (tableswitch pc operands.now) }
{
    let rest = padding_at(pc, operands)?;
    let (default, rest) = far_target_at(pc, rest)?;
    let (low, rest) = i4_at(rest)?;
    let (high, rest) = i4_at(rest)?;
    if high < low {
        return Err(Fault::BadCode);
    }
    let (rows, rest) = table_rows(alloc, pc, low, span(low, high), rest)?;
    let insn = Insn::Switch {
        form: SwitchForm::Table,
        default,
        rows: Items::from_vec(rows),
    };
    Ok((insn, rest))
}

/// Whether a key is above the one before it, where there is one.
fn is_above(before: Option<i32>, key: i32) -> bool
    ensures { result ≡ is_above before key }
{
    match before {
        Some(before) => before < key,
        None => true,
    }
}

/// A row, of which the key is above the one before it.
#[tactic(auto, unfolding(crate::specs::Table::lookup_row))]
fn lookup_row(pc: u32, before: Option<i32>, bytes: &[u8]) -> Result<(SwitchRow, &[u8]), Fault>
    ensures { Gives (λ x. (x.0, x.1.now)) result (lookup_row pc before bytes.now) }
{
    let (key, rest) = i4_at(bytes)?;
    let (target, rest) = far_target_at(pc, rest)?;
    if !is_above(before, key) {
        return Err(Fault::BadCode);
    }
    Ok((SwitchRow { key, target }, rest))
}

/// So many rows, of which the keys rise.
fn lookup_rows(
    alloc: Global,
    pc: u32,
    count: usize,
    bytes: &[u8],
) -> Result<(Vec<SwitchRow>, &[u8]), Fault>
    ensures { Gives (λ x. (x.0.items, x.1.now)) result (lookup_rows pc None count bytes.now) }
{
    let mut rows = Vec::new(alloc);
    let mut rest = bytes;
    let mut before = None;
    for _ in 0..count {
        let (row, after) = lookup_row(pc, before, rest)?;
        rows.push(row)?;
        before = Some(row.key);
        rest = after;
    }
    Ok((rows, rest))
}

/// lookupswitch.
#[tactic(auto, unfolding(crate::specs::Table::lookupswitch))]
pub(crate) fn lookupswitch(alloc: Global, pc: u32, operands: &[u8]) -> Result<(Insn, &[u8]), Fault>
    ensures { Gives (λ x. (x.0, x.1.now)) result (lookupswitch pc operands.now) }
{
    let rest = padding_at(pc, operands)?;
    let (default, rest) = far_target_at(pc, rest)?;
    let (count, rest) = i4_at(rest)?;
    if count < 0 {
        return Err(Fault::BadCode);
    }
    let (rows, rest) = lookup_rows(alloc, pc, count as usize, rest)?;
    let insn = Insn::Switch {
        form: SwitchForm::Lookup,
        default,
        rows: Items::from_vec(rows),
    };
    Ok((insn, rest))
}
