//! The greatest number of operand cells in a run of moves.

ghost use Rattle.std.specs.Prelude.{◌≡◌, ◌++◌, List, IfSome};
ghost use Rattle.flow_split.specs.declared.moves.Move.{Move as Made};
ghost use Rattle.flow_split.specs.Moves.{most_moves};
ghost use Rattle.flow_split.specs.Peaks.{most_after, moved as moved_of};

use crate::moves::Move;

/// How many operand cells there are, and how many there were at most before.
#[derive(Clone, Copy, Debug)]
pub(crate) struct Peak {
    pub(crate) height: u64,
    pub(crate) most: u64,
}

/// After a move; `None` where a number does not fit.
pub(crate) fn moved(peak: Peak, made: Move) -> Option<Peak>
    ensures { IfSome result (λ after. after ≡ moved_of peak made) }
{
    let left = peak.height.saturating_sub(made.pops);
    match left.checked_add(made.pushes) {
        Some(height) => Some(Peak {
            height,
            most: peak.most.max(peak.height),
        }),
        None => None,
    }
}

/// After some moves.
fn all_moved(peak: Peak, moves: &[Move]) -> Option<Peak>
    ensures { IfSome result (λ after. (rest : List Made) → most_after after rest ≡ most_after peak (moves.now ++ rest)) }
{
    let mut after = peak;
    for made in moves {
        after = match moved(after, *made) {
            Some(after) => after,
            None => return None,
        };
    }
    Some(after)
}

/// The greatest number of operand cells where these moves are the last.
pub(crate) fn most_cells(peak: Peak, moves: &[Move]) -> Option<u64>
    ensures { IfSome result (λ most. most ≡ most_after peak moves.now) }
{
    match all_moved(peak, moves) {
        Some(after) => Some(after.most.max(after.height)),
        None => None,
    }
}
