//! Where locals stand in a frame, one after the other.

ghost use Rattle.std.specs.Prelude.{◌≡◌, ℕ, List, ◌≤◌, ◌+◌, ◌*◌, ◌^◌, map, length, slice_index_or, take, IfOk};
ghost use Rattle.std.specs.List.{range_with_len};
ghost use Rattle.flow_split.specs.declared.shares.Share.{Share as LocalShare};
ghost use Rattle.flow_split.specs.Shares.{passed_in, extended_in, stored_in, total_in, first_position as first_position_of, positions_of};

use std::alloc::{AllocError, Global};

/// How many positions of a frame a local takes: as a parameter, as a parameter that is extended at entry, and as a local
/// that is stored.
#[derive(Clone, Copy, Debug)]
pub(crate) struct Share {
    pub(crate) passed: u8,
    pub(crate) extended: u8,
    pub(crate) stored: u8,
}

/// So many positions of each kind.
#[derive(Clone, Copy, Debug)]
pub(crate) struct Counts {
    pub(crate) passed: u32,
    pub(crate) extended: u32,
    pub(crate) stored: u32,
}

/// One more local.
pub(crate) fn after(counts: Counts, share: Share) -> Counts
    requires small { (counts.passed ≤ 2 ^ 31) × (counts.extended ≤ 2 ^ 31) × (counts.stored ≤ 2 ^ 31) }
    ensures passed { result.passed ≡ counts.passed + share.passed }
    ensures extended { result.extended ≡ counts.extended + share.extended }
    ensures stored { result.stored ≡ counts.stored + share.stored }
    ensures passed_small { result.passed ≤ counts.passed + 255 }
    ensures extended_small { result.extended ≤ counts.extended + 255 }
    ensures stored_small { result.stored ≤ counts.stored + 255 }
{
    Counts {
        passed: counts.passed + u32::from(share.passed),
        extended: counts.extended + u32::from(share.extended),
        stored: counts.stored + u32::from(share.stored),
    }
}

/// How many positions these locals take.
pub(crate) fn counts_of(shares: &[Share]) -> Counts
    requires { length shares.now ≤ 65535 }
    ensures passed { result.passed ≡ passed_in shares.now }
    ensures extended { result.extended ≡ extended_in shares.now }
    ensures stored { result.stored ≡ stored_in shares.now }
    ensures small { (result.passed + result.extended) + result.stored ≤ 3 * (255 * 65535) }
{
    let mut counts = Counts {
        passed: 0,
        extended: 0,
        stored: 0,
    };
    for share in shares {
        counts = after(counts, *share);
    }
    counts
}

/// The first position of a local, where so many come before those of each kind.
fn first_position(next: Counts, share: Share) -> Option<u16>
    requires passed { next.passed ≤ 32767 }
    requires extended { next.extended ≤ 32767 }
    requires stored { next.stored ≤ 32767 }
    ensures { (passed extended : ℕ) (before : List LocalShare) → next.passed ≡ passed_in before → next.extended ≡ passed + extended_in before → next.stored ≡ (passed + extended) + stored_in before → result ≡ first_position_of passed extended before share }
{
    if share.extended > 0 {
        Some(next.extended as u16)
    } else if share.stored > 0 {
        Some(next.stored as u16)
    } else if share.passed > 0 {
        Some(next.passed as u16)
    } else {
        None
    }
}

/// The first position of each of these locals: parameters come first, then those that are extended, then the others.
pub(crate) fn positions(alloc: Global, shares: &[Share]) -> Result<Vec<Option<u16>>, AllocError>
    requires few { length shares.now ≤ 65535 }
    requires small { total_in shares.now ≤ 32767 }
    ensures { IfOk result (λ positions. positions.items ≡ positions_of shares.now) }
{
    let all = counts_of(shares);
    let mut next = Counts {
        passed: 0,
        extended: all.passed,
        stored: all.passed + all.extended,
    };
    let mut positions = Vec::new(alloc);
    for share in shares {
        match positions.push(first_position(next, *share)) {
            Ok(()) => {}
            Err(why) => return Err(why.into()),
        }
        next = after(next, *share);
    }
    Ok(positions)
}

/// How many positions these locals take.
pub(crate) fn total(shares: &[Share]) -> u32
    requires { length shares.now ≤ 65535 }
    ensures { result ≡ total_in shares.now }
{
    let all = counts_of(shares);
    all.passed + all.extended + all.stored
}
