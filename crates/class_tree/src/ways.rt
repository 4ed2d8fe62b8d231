//! The ways of all classes: those of classes with fewer classes above them are made first, so that each is
//! made once, over those that are there.

ghost use Rattle.std.specs.Prelude.{◌≡◌, ◌≢◌, ◌<◌, ◌+◌, ℕ, length, OnOk, IfOk};
ghost use Rattle.class_tree.specs.Ways.{way_at as way_at_class, IsWayOver, FallAlong, AreWaysBelow, AreWaysUp};

use crate::way::{Way, way_at, way_over};
use std::alloc::{AllocError, Global};

/// So many empty ways.
fn empty_ways(alloc: Global, count: usize) -> Result<Vec<Way>, AllocError>
    ensures { IfOk result (λ ways. length ways.items ≡ count) }
{
    let mut ways = Vec::new(alloc);
    for _ in 0..count {
        ways.push(Way::new(alloc))?;
    }
    Ok(ways)
}

/// Makes the way of a class over the others.
fn put_way(
    alloc: Global,
    ways: &mut Vec<Way>,
    own: &[Way],
    above: &[Way],
    class: usize,
) -> Result<(), AllocError>
    requires { class < length ways.old.items }
    ensures same_length { OnOk result (length ways.new.items ≡ length ways.old.items) }
    ensures over { OnOk result (IsWayOver ways.old.items (way_at_class own.now class) (way_at_class above.now class) (way_at_class ways.new.items class)) }
    ensures others { OnOk result ((other : ℕ) → other ≢ class → way_at_class ways.new.items other ≡ way_at_class ways.old.items other) }
{
    let way = way_over(
        alloc,
        ways.as_slice(),
        way_at(own, class),
        way_at(above, class),
    )?;
    ways[class] = way;
    Ok(())
}

/// Makes the way of a class, where it is of this rank.
fn make_way(
    alloc: Global,
    ways: &mut Vec<Way>,
    own: &[Way],
    above: &[Way],
    ranks: &[usize],
    rank: usize,
    class: usize,
) -> Result<(), AllocError>
    requires class { class < length own.now }
    requires falls { FallAlong above.now ranks.now (length own.now) }
    requires below { AreWaysBelow own.now above.now ranks.now (length own.now) rank class ways.old.items }
    ensures { OnOk result (AreWaysBelow own.now above.now ranks.now (length own.now) rank (class + 1) ways.new.items) }
{
    if ranks[class] != rank {
        return Ok(());
    }
    put_way(alloc, ways, own, above, class)?;
    Ok(())
}

/// The way of each class: its own list, and then the ways of those above it.
pub(crate) fn ways_of(
    alloc: Global,
    own: &[Way],
    above: &[Way],
    ranks: &[usize],
) -> Result<Vec<Way>, AllocError>
    requires { FallAlong above.now ranks.now (length own.now) }
    ensures { IfOk result (λ ways. AreWaysUp own.now above.now (length own.now) ways.items) }
{
    let mut ways = empty_ways(alloc, own.len())?;
    for rank in 0..own.len() {
        for class in 0..own.len() {
            make_way(alloc, &mut ways, own, above, ranks, rank, class)?;
        }
    }
    Ok(ways)
}
