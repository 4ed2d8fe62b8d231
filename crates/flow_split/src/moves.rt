//! Moves of operand cells.

ghost use Rattle.std.specs.Prelude.{◌≡◌, cond};
ghost use Rattle.flow_split.specs.MovesLaws.{MovesAreEnough};

/// So many cells are popped, and then so many pushed.
#[derive(Clone, Copy, Debug, PartialEq, Eq)]
pub struct Move {
    pub pops: u64,
    pub pushes: u64,
}

/// Nothing moves.
pub(crate) const STILL: Move = Move { pops: 0, pushes: 0 };

/// The move, where it is made.
pub(crate) fn moved_where(is: bool, pops: u64, pushes: u64) -> Move
    ensures { result ≡ cond is (record { pops = pops; pushes = pushes }) (record { pops = 0; pushes = 0 }) }
{
    if is { Move { pops, pushes } } else { STILL }
}

/// The moves of instructions have the greatest number of operand cells that the instructions have.
pub fn moves_are_enough()
    ensures { MovesAreEnough }
{}
