//! The cells of the locals that hold whole numbers.

ghost use Rattle.std.specs.Prelude.{◌≡◌, ◌≤◌, map, length, IfOk};
ghost use Rattle.body_form.specs.declared.body.Body.{Body as MethodBody};
ghost use Rattle.insn_form.specs.declared.ValueKind.TheVariants as value_kind;
ghost use Rattle.jvm_model.specs.WidthsShapes.{Widths};
ghost use Rattle.jvm_model.specs.WidthsSlots.{is_stored, locals_of, cell_of, cell_count};
ghost use Rattle.flow_split.specs.Shares.{total_in, cell_share as cell_share_of, cell_shares_of};

use crate::kinds::width_cells;
use crate::marks::stored_marks;
use crate::parameters::{is_small_parameter, is_whole_parameter, parameter_cells};
use crate::shares::{Share, positions, total};
use body_form::Body;
use image_instr::Width;
use insn_form::ValueKind;
use std::alloc::{AllocError, Global};

/// How many cells a small parameter takes more, where its local has this width.
fn extended_cells(body: &Body, local: u16, width: Width) -> u8
    ensures { (widths : Widths) → widths.local local ≡ width → result ≡ (let share = cell_share_of body.now widths local in share.extended) }
{
    if is_small_parameter(body, local) && matches!(width, Width::Two) {
        2
    } else {
        0
    }
}

/// How many cells a local takes that is no parameter, where whole numbers are stored in it.
fn stored_cells(body: &Body, local: u16, width: Width, stored: bool) -> u8
    ensures { (widths : Widths) → widths.local local ≡ width → stored ≡ is_stored value_kind.Int body.now local → result ≡ (let share = cell_share_of body.now widths local in share.stored) }
{
    if !is_whole_parameter(body, local) && stored {
        width_cells(width) as u8
    } else {
        0
    }
}

/// What a local takes of the cells.
fn cell_share(body: &Body, local: u16, width: Width, stored: bool) -> Share
    ensures { (widths : Widths) → widths.local local ≡ width → stored ≡ is_stored value_kind.Int body.now local → result ≡ cell_share_of body.now widths local }
{
    Share {
        passed: parameter_cells(body, local),
        extended: extended_cells(body, local, width),
        stored: stored_cells(body, local, width, stored),
    }
}

/// What each local takes of the cells, where these are the widths of the locals.
pub(crate) fn cell_shares(
    alloc: Global,
    body: &Body,
    widths: &[Width],
) -> Result<Vec<Share>, AllocError>
    requires { length widths.now ≡ body.now.max_locals }
    ensures is { IfOk result (λ shares. (all : Widths) → widths.now ≡ map all.local (locals_of body.now) → shares.items ≡ cell_shares_of body.now all) }
    ensures size { IfOk result (λ shares. length shares.items ≡ body.now.max_locals) }
{
    let marks = stored_marks(alloc, ValueKind::Int, body)?;
    let marks = marks.as_slice();
    let mut shares = Vec::new(alloc);
    for local in 0..body.max_locals {
        let index = usize::from(local);
        match shares.push(cell_share(body, local, widths[index], marks[index])) {
            Ok(()) => {}
            Err(why) => return Err(why.into()),
        }
    }
    Ok(shares)
}

/// The first cell of each local that has cells.
pub(crate) fn cells(alloc: Global, shares: &[Share]) -> Result<Vec<Option<u16>>, AllocError>
    requires few { length shares.now ≤ 65535 }
    requires small { total_in shares.now ≤ 32767 }
    ensures { IfOk result (λ cells. (body : MethodBody) (widths : Widths) → shares.now ≡ cell_shares_of body widths → cells.items ≡ map (cell_of body widths) (locals_of body)) }
{
    positions(alloc, shares)
}
