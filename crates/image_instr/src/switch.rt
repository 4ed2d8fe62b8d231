//! Switches and tables: their rows are read in the code, and searched there.

ghost use Rattle.std.specs.Prelude.{◌≡◌, ℕ, ◌+◌, ◌+ℤ◌, ◌*◌, ◌^◌, ◌<◌, ◌≤◌, ◌≢◌, List, pos, length, drop, true, Some, None, IfSome, IfNone, IsSome};
ghost use Rattle.std.specs.Int.Signed.{le_z};
ghost use Rattle.byteorder.specs.Endian.{big_number};
ghost use Rattle.image_instr.specs.declared.insn.SwitchRow.{SwitchRow};
ghost use Rattle.image_instr.specs.declared.insn.MInsn.{MInsn};
ghost use Rattle.image_instr.specs.Insn.{IsAtPrefix, HoldsAt};
ghost use Rattle.image_instr.specs.Reading.{key_in, is_above, keys_rise as keys_rise_in, switch_in, table_in, rows_in, targets_in};
ghost use Rattle.image_instr.specs.Switch.{IsSwitchFirst, IsSwitchAt, default_of, target_in, rows_target, targets_target};

use crate::insn::{MInsn, Width};
use crate::opcode::SWITCH2;
use crate::operand::{i4, u2};
use byteorder::{BigEndian, ByteOrder};

/// The bytes of a row: its key in four, its target in two.
const ROW: usize = 6;

/// The key of the row at the prefix.
fn key(row: &[u8]) -> i32
    requires { 4 ≤ length row.now }
    ensures { result ≡ key_in row.now }
{
    BigEndian::read_u32(row).cast_signed()
}

/// The rows after the one at the prefix.
fn suffix(rows: &[u8]) -> &[u8]
    requires { 6 ≤ length rows.now }
    ensures { result.now ≡ drop 6 rows.now }
{
    &rows[ROW..]
}

/// Whether a key is above the one before, where there is one.
fn is_above(before: Option<i32>, key: i32) -> bool
    ensures { result ≡ is_above before key }
{
    match before {
        Some(before) => before < key,
        None => true,
    }
}

/// Whether the keys of so many rows rise.
fn keys_rise(count: u16, rows: &[u8]) -> bool
    requires { 6 * count ≤ length rows.now }
    ensures { result ≡ keys_rise_in count None rows.now }
{
    let mut before = None;
    let mut rest = rows;
    for _ in 0..count {
        let key = key(rest);
        if !is_above(before, key) {
            return false;
        }
        before = Some(key);
        rest = suffix(rest);
    }
    true
}

/// SWITCH: the default target, the count, and rows whose keys rise.
#[inline(always)]
pub(crate) fn switch(width: Width, operands: &[u8]) -> Option<(MInsn, usize)>
    ensures { result ≡ switch_in width operands.now }
{
    let default = u2(operands)?;
    let count = u2(&operands[2..])?;
    let rows = &operands[4..];
    let size = ROW * usize::from(count);
    if rows.len() < size || !keys_rise(count, rows) {
        return None;
    }
    let insn = MInsn::Switch {
        width,
        default,
        count,
    };
    Some((insn, 5 + size))
}

/// SWITCH where one is known to be: its keys are not tested again.
#[inline(always)]
pub(crate) fn known_switch(width: Width, operands: &[u8]) -> (MInsn, usize)
    requires { IsSome (switch_in width operands.now) }
    ensures { switch_in width operands.now ≡ Some result }
{
    let default = BigEndian::read_u16(operands);
    let count = BigEndian::read_u16(&operands[2..]);
    let insn = MInsn::Switch {
        width,
        default,
        count,
    };
    (insn, 5 + ROW * usize::from(count))
}

/// Whether a key is in range after so many keys from the low one on.
#[inline(always)]
fn last_fits(low: i32, count: u16) -> bool
    ensures { result ≡ le_z (low +ℤ pos count) (pos (2 ^ 31)) }
{
    i64::from(low) + i64::from(count) <= 1 << 31
}

/// TABLE: the default target, the low key, the count, which is at least 1, and targets.
#[inline(always)]
pub(crate) fn table(width: Width, operands: &[u8]) -> Option<(MInsn, usize)>
    ensures { result ≡ table_in width operands.now }
{
    let default = u2(operands)?;
    let low = i4(&operands[2..])?;
    let count = u2(&operands[6..])?;
    let size = 2 * usize::from(count);
    if count < 1 || !last_fits(low, count) || operands.len() - 8 < size {
        return None;
    }
    let insn = MInsn::Table {
        width,
        default,
        low,
        count,
    };
    Some((insn, 9 + size))
}

/// The rows from an index on.
fn rows_from(rows: &[u8], index: usize) -> &[u8]
    requires { 6 * index ≤ length rows.now }
    ensures { result.now ≡ drop (6 * index) rows.now }
{
    &rows[ROW * index..]
}

/// The target of the row at the prefix.
fn target(row: &[u8]) -> u16
    requires { 6 ≤ length row.now }
    ensures { result ≡ big_number 2 (drop 4 row.now) }
{
    BigEndian::read_u16(&row[4..])
}

/// The target of the row with the key among so many rows whose keys rise, or else the default.
fn row_target(default: u16, count: u16, rows: &[u8], wanted: i32) -> u16
    requires there { 6 * count ≤ length rows.now }
    requires rise { keys_rise_in count None rows.now ≡ true }
    ensures { result ≡ target_in default (rows_in count rows.now) wanted }
{
    let mut low = 0;
    let mut high = usize::from(count);
    while low < high {
        let middle = low + (high - low) / 2;
        let row = rows_from(rows, middle);
        let key = key(row);
        if key == wanted {
            return target(row);
        }
        if key < wanted {
            low = middle + 1;
        } else {
            high = middle;
        }
    }
    default
}

/// The target at a place among targets.
fn target_at(targets: &[u8], place: usize) -> u16
    requires { 2 * place + 2 ≤ length targets.now }
    ensures { result ≡ big_number 2 (drop (2 * place) targets.now) }
{
    BigEndian::read_u16(&targets[2 * place..])
}

/// The place of a key among so many from the low one on.
fn place_of(low: i32, count: u16, wanted: i32) -> Option<usize>
    ensures found { IfSome result (λ place. (place < count) × (wanted ≡ low +ℤ pos place)) }
    ensures none { IfNone result ((place : ℕ) → place < count → wanted ≢ low +ℤ pos place) }
{
    let place = i64::from(wanted) - i64::from(low);
    if place < 0 || i64::from(count) <= place {
        return None;
    }
    Some(place as usize)
}

/// The target for the key among those of so many keys from the low one on, or else the default.
fn table_target(default: u16, low: i32, count: u16, targets: &[u8], wanted: i32) -> u16
    requires { 2 * count ≤ length targets.now }
    ensures { result ≡ target_in default (targets_in low count targets.now) wanted }
{
    match place_of(low, count, wanted) {
        Some(place) => target_at(targets, place),
        None => default,
    }
}

/// The target in the operands of a switch.
fn switch_operands_target(operands: &[u8], wanted: i32) -> u16
    requires there { 4 ≤ length operands.now }
    requires rows { 6 * big_number 2 (drop 2 operands.now) ≤ length (drop 4 operands.now) }
    requires rise { keys_rise_in (big_number 2 (drop 2 operands.now)) None (drop 4 operands.now) ≡ true }
    ensures { result ≡ rows_target operands.now wanted }
{
    let default = BigEndian::read_u16(operands);
    let count = BigEndian::read_u16(&operands[2..]);
    row_target(default, count, &operands[4..], wanted)
}

/// The target in the operands of a table.
fn table_operands_target(operands: &[u8], wanted: i32) -> u16
    requires there { 8 ≤ length operands.now }
    requires targets { 2 * big_number 2 (drop 6 operands.now) ≤ length (drop 8 operands.now) }
    ensures { result ≡ targets_target operands.now wanted }
{
    let default = BigEndian::read_u16(operands);
    let low = key(&operands[2..]);
    let count = BigEndian::read_u16(&operands[6..]);
    table_target(default, low, count, &operands[8..], wanted)
}

/// What stands from a place on.
fn bytes_from(bytes: &[u8], place: usize) -> &[u8]
    requires { place ≤ length bytes.now }
    ensures { result.now ≡ drop place bytes.now }
{
    &bytes[place..]
}

/// Where the switch or the table at the prefix of the bytes jumps.
fn first_target(bytes: &[u8], key: i32) -> u16
    requires { IsSwitchFirst bytes.now }
    ensures { (insn : MInsn) (rows : List SwitchRow) (size : ℕ) →
        IsAtPrefix insn rows size bytes.now → result ≡ target_in (default_of insn) rows key }
{
    let operands = bytes_from(bytes, 1);
    // The tables are after the switches.
    if bytes[0] <= SWITCH2 {
        switch_operands_target(operands, key)
    } else {
        table_operands_target(operands, key)
    }
}

/// Where the switch or the table that is at a place of the code jumps for a number: the target of
/// the row with the number as its key, or else the default.
pub fn switch_target(code: &[u8], pc: usize, key: i32) -> u16
    // A switch or a table stands there.
    requires { IsSwitchAt code.now pc }
    ensures { (insn : MInsn) (rows : List SwitchRow) (size : ℕ) →
        HoldsAt code.now pc insn rows size → result ≡ target_in (default_of insn) rows key }
{
    first_target(bytes_from(code, pc), key)
}
