//! The small parameters that are extended at entry.

ghost use Rattle.std.specs.Prelude.{◌≡◌, ◌≤◌, ◌++◌, if◌then◌else◌, nat_lt, Some, None, length, IfOk, OnOk};
ghost use Rattle.std.specs.Option.{option_to_list};
ghost use Rattle.jvm_model.specs.WidthsShapes.{Widths};
ghost use Rattle.jvm_model.specs.WidthsSlots.{is_parameter, is_char, fills_of};
ghost use Rattle.flow_split.specs.Shares.{total_in, cell_shares_of};

use crate::parameters::is_char_parameter;
use crate::shares::{Counts, Share, after, counts_of};
use body_form::Body;
use jvm_model::Fill;
use std::alloc::{AllocError, Global};

/// How a local is extended, if it is, where so many cells come before those of each kind.
fn fill(body: &Body, local: u16, next: Counts, share: Share) -> Option<Fill>
    requires passed { next.passed ≤ 32767 }
    requires extended { next.extended ≤ 32767 }
    ensures { result ≡ (if nat_lt 0 share.extended then Some (record { from = next.passed; to = next.extended; zero = is_parameter is_char body.now local }) else None) }
{
    if share.extended > 0 {
        Some(Fill {
            from: next.passed as u16,
            to: next.extended as u16,
            zero: is_char_parameter(body, local),
        })
    } else {
        None
    }
}

/// Appends one, where there is one.
fn append(fills: &mut Vec<Fill>, fill: Option<Fill>) -> Result<(), AllocError>
    ensures { OnOk result (fills.new.items ≡ fills.old.items ++ option_to_list fill) }
{
    match fill {
        Some(fill) => match fills.push(fill) {
            Ok(()) => Ok(()),
            Err(why) => Err(why.into()),
        },
        None => Ok(()),
    }
}

/// How the locals of small parameters are extended, in order of these, where each local takes these cells.
pub(crate) fn fills(alloc: Global, body: &Body, shares: &[Share]) -> Result<Vec<Fill>, AllocError>
    requires size { length shares.now ≡ body.now.max_locals }
    requires small { total_in shares.now ≤ 32767 }
    ensures { IfOk result (λ fills. (widths : Widths) → shares.now ≡ cell_shares_of body.now widths → fills.items ≡ fills_of body.now widths) }
{
    let count = body.max_locals;
    let all = counts_of(shares);
    let mut next = Counts {
        passed: 0,
        extended: all.passed,
        stored: 0,
    };
    let mut fills = Vec::new(alloc);
    for local in 0..count {
        let cells = shares[usize::from(local)];
        match append(&mut fills, fill(body, local, next, cells)) {
            Ok(()) => {}
            Err(why) => return Err(why),
        }
        next = after(next, cells);
    }
    Ok(fills)
}
