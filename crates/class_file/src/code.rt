//! The `Code` attribute (JVMS 4.7.3).

ghost use Rattle.std.specs.Prelude.{◌≡◌, [], List};
ghost use Rattle.class_file.specs.Rules.{is_code_size, is_catch_type, is_handler};
ghost use Rattle.byte_read.specs.Reading.{steps_at, one_more};
ghost use Rattle.class_file.specs.Reading.{Gives};
ghost use Rattle.class_file.specs.ReadingMembers.{handler_at, handlers_at, code_bytes_at, code_parts, in_code, as_shape, code_at};

use crate::attribute::{info_at, skip_all_at};
use crate::field::{slice_at, u2_at, u4_at};
use crate::names::is_class;
use crate::record::{CodeAttr, HandlerRow};
use crate::refusal::ReadRefusal;
use class_pool::Pool;
use item_list::Items;
use std::alloc::Global;

/// How many bytes code may have (JVMS 4.7.3).
const MOST_CODE: u32 = 65_535;

/// Code has 1 to 65,535 bytes.
fn is_code_size(size: u32) -> bool
    ensures { result ≡ is_code_size size }
{
    0 < size && size <= MOST_CODE
}

/// The index is 0, for any class, or that of a class.
fn is_catch_type(pool: &Pool, index: u16) -> bool
    ensures { result ≡ is_catch_type pool.now index }
{
    index == 0 || is_class(pool, index)
}

/// The row covers some of the code, of this size, and leads into it.
fn is_handler(pool: &Pool, size: usize, row: HandlerRow) -> bool
    ensures { result ≡ is_handler pool.now size row }
{
    row.start < row.end
        && usize::from(row.end) <= size
        && usize::from(row.target) < size
        && is_catch_type(pool, row.catch_type)
}

/// A row of the exception table of code of this size.
#[tactic(auto, unfolding(crate::specs::ReadingMembers::handler_at))]
fn handler_at<'a>(
    pool: &Pool,
    size: usize,
    bytes: &'a [u8],
) -> Result<(HandlerRow, &'a [u8]), ReadRefusal>
    ensures { Gives (λ x. (x.0, x.1.now)) result (handler_at pool.now size bytes.now) }
{
    let (start, rest) = u2_at(bytes)?;
    let (end, rest) = u2_at(rest)?;
    let (target, rest) = u2_at(rest)?;
    let (catch_type, rest) = u2_at(rest)?;
    let row = HandlerRow {
        start,
        end,
        target,
        catch_type,
    };
    if !is_handler(pool, size, row) {
        return Err(ReadRefusal::BadShape);
    }
    Ok((row, rest))
}

/// So many rows.
fn handler_rows<'a>(
    alloc: Global,
    pool: &Pool,
    size: usize,
    count: u16,
    bytes: &'a [u8],
) -> Result<(Vec<HandlerRow>, &'a [u8]), ReadRefusal>
    ensures { Gives (λ x. (x.0.items, x.1.now)) result (steps_at (one_more (λ earlier rest. handler_at pool.now size rest)) [] count bytes.now) }
{
    let mut rows = Vec::new(alloc);
    let mut rest = bytes;
    for _ in 0..count {
        let (row, after) = handler_at(pool, size, rest)?;
        rows.push(row)?;
        rest = after;
    }
    Ok((rows, rest))
}

/// The exception table of code of this size.
#[tactic(auto, unfolding(crate::specs::ReadingMembers::handlers_at, crate::specs::Reading::counted_at))]
fn handlers_at<'a>(
    alloc: Global,
    pool: &Pool,
    size: usize,
    bytes: &'a [u8],
) -> Result<(Items<HandlerRow>, &'a [u8]), ReadRefusal>
    ensures { Gives (λ x. (x.0, x.1.now)) result (handlers_at pool.now size bytes.now) }
{
    let (count, rest) = u2_at(bytes)?;
    let (rows, rest) = handler_rows(alloc, pool, size, count, rest)?;
    Ok((Items::from_vec(rows), rest))
}

/// The code, with its length.
#[tactic(auto, unfolding(crate::specs::ReadingMembers::code_bytes_at))]
fn code_bytes_at(bytes: &[u8]) -> Result<(&[u8], &[u8]), ReadRefusal>
    ensures { Gives (λ x. (x.0.now, x.1.now)) result (code_bytes_at bytes.now) }
{
    let (size, rest) = u4_at(bytes)?;
    if !is_code_size(size) {
        return Err(ReadRefusal::BadShape);
    }
    slice_at(size as usize, rest)
}

/// The parts of a `Code` attribute, which fill its bytes.
#[tactic(auto, unfolding(crate::specs::ReadingMembers::code_parts))]
fn code_parts(alloc: Global, pool: &Pool, bytes: &[u8]) -> Result<CodeAttr, ReadRefusal>
    ensures { Gives (λ code. code) result (code_parts pool.now bytes.now) }
{
    let (max_stack, rest) = u2_at(bytes)?;
    let (max_locals, rest) = u2_at(rest)?;
    let (code, rest) = code_bytes_at(rest)?;
    let (handlers, rest) = handlers_at(alloc, pool, code.len(), rest)?;
    let rest = skip_all_at(pool, rest)?;
    if !rest.is_empty() {
        return Err(ReadRefusal::BadShape);
    }
    Ok(CodeAttr {
        max_stack,
        max_locals,
        code: Items::from_vec(Vec::from_slice(alloc, code)?),
        handlers,
    })
}

/// Inside `Code` each fault is one of the shape; want of memory stays what it is.
fn in_code(why: ReadRefusal) -> ReadRefusal
    ensures { result ≡ in_code why }
{
    match why {
        ReadRefusal::Memory => ReadRefusal::Memory,
        _ => ReadRefusal::BadShape,
    }
}

/// The parts of a `Code` attribute, of which one that is cut off is a fault of the shape.
fn whole_code(alloc: Global, pool: &Pool, bytes: &[u8]) -> Result<CodeAttr, ReadRefusal>
    ensures { Gives (λ code. code) result (as_shape (code_parts pool.now bytes.now)) }
{
    match code_parts(alloc, pool, bytes) {
        Ok(code) => Ok(code),
        Err(why) => Err(in_code(why)),
    }
}

/// What follows the name `Code`.
#[tactic(auto, unfolding(crate::specs::ReadingMembers::code_at))]
pub(crate) fn code_at<'a>(
    alloc: Global,
    pool: &Pool,
    bytes: &'a [u8],
) -> Result<(CodeAttr, &'a [u8]), ReadRefusal>
    ensures { Gives (λ x. (x.0, x.1.now)) result (code_at pool.now bytes.now) }
{
    let (info, rest) = info_at(bytes)?;
    let code = whole_code(alloc, pool, info)?;
    Ok((code, rest))
}
