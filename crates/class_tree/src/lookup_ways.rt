//! The ways that the lookups of a set go, made once.

ghost use Rattle.std.specs.Prelude.{◌≡◌, ◌≤◌, ◌<◌, ◌+◌, ℕ, length, get_or, map, IfOk};
ghost use Rattle.class_tree.specs.Set.{own_name};
ghost use Rattle.class_tree.specs.Ranks.{AreRanks};
ghost use Rattle.class_tree.specs.Ways.{rank_at};
ghost use Rattle.class_tree.specs.LookupWays.{AreAlone, LeadUpBy, LeadBeside, AreLookupWays};
ghost use Rattle.class_tree.specs.declared.route.Route.TheVariants.{Superinterfaces};

use crate::names::Names;
use crate::route::{Route, above_ways};
use crate::way::{Way, way_at, way_over};
use crate::ways::ways_of;
use class_file::ClassFile;
use library::FIRST_OWN;
use std::alloc::{AllocError, Global};

/// The way of each class, by each route.
#[derive(Debug, Drop)]
pub(crate) struct LookupWays {
    /// By superinterfaces, and then the superclass.
    pub(crate) both: Vec<Way>,
    pub(crate) superclasses: Vec<Way>,
    pub(crate) superinterfaces: Vec<Way>,
    /// By the superinterfaces of the class, and then those of its superclasses.
    pub(crate) beside: Vec<Way>,
}

/// A list with the class alone for each of so many classes.
fn alone(alloc: Global, count: usize) -> Result<Vec<Way>, AllocError>
    requires { count < 65536 }
    ensures many { IfOk result (λ own. length own.items ≡ count) }
    ensures each { IfOk result (λ own. AreAlone count own.items) }
{
    let mut own = Vec::new(alloc);
    for class in 0..count {
        let mut way = Way::new(alloc);
        way.extend(&[class as u16])?;
        own.push(way)?;
    }
    Ok(own)
}

/// The ways by a route, where each class answers by a list of its own.
fn up_by(
    alloc: Global,
    names: &Names,
    files: &[ClassFile],
    ranks: &[usize],
    own: &[Way],
    route: Route,
) -> Result<Vec<Way>, AllocError>
    requires names { length names.now ≤ 512 }
    requires own { length own.now ≡ 32 + length names.now }
    requires many { length ranks.now ≡ 32 + length names.now }
    requires ranks { AreRanks names.now files.now (rank_at ranks.now) }
    ensures { IfOk result (λ ways. LeadUpBy names.now files.now route own.now ways.items) }
{
    let above = above_ways(alloc, names, files, route)?;
    let ways = ways_of(alloc, own, above.as_slice(), ranks)?;
    Ok(ways)
}

/// For each class the ways of its superinterfaces, one after the other.
fn beside_of(
    alloc: Global,
    names: &Names,
    files: &[ClassFile],
    ways: &[Way],
) -> Result<Vec<Way>, AllocError>
    requires { length names.now ≤ 512 }
    ensures many { IfOk result (λ lists. length lists.items ≡ 32 + length names.now) }
    ensures each { IfOk result (λ lists. LeadBeside names.now files.now ways.now lists.items) }
{
    let above = above_ways(alloc, names, files, Route::Superinterfaces)?;
    let mut lists = Vec::new(alloc);
    for class in 0..usize::from(FIRST_OWN) + names.count() {
        let list = way_over(alloc, ways, &[], way_at(above.as_slice(), class))?;
        lists.push(list)?;
    }
    Ok(lists)
}

/// The ways that the lookups go.
pub(crate) fn lookup_ways(
    alloc: Global,
    names: &Names,
    files: &[ClassFile],
    ranks: &[usize],
) -> Result<LookupWays, AllocError>
    requires count { length names.now ≤ 512 }
    requires named { names.now ≡ map own_name files.now }
    requires many { length ranks.now ≡ 32 + length names.now }
    requires ranks { AreRanks names.now files.now (rank_at ranks.now) }
    ensures { IfOk result (λ ways. AreLookupWays files.now ways.both.items ways.superclasses.items ways.superinterfaces.items ways.beside.items) }
{
    let own = alone(alloc, usize::from(FIRST_OWN) + names.count())?;
    let both = up_by(alloc, names, files, ranks, own.as_slice(), Route::Both)?;
    let superclasses = up_by(
        alloc,
        names,
        files,
        ranks,
        own.as_slice(),
        Route::Superclass,
    )?;
    let superinterfaces = up_by(
        alloc,
        names,
        files,
        ranks,
        own.as_slice(),
        Route::Superinterfaces,
    )?;
    let lists = beside_of(alloc, names, files, superinterfaces.as_slice())?;
    let beside = up_by(
        alloc,
        names,
        files,
        ranks,
        lists.as_slice(),
        Route::Superclass,
    )?;
    Ok(LookupWays {
        both,
        superclasses,
        superinterfaces,
        beside,
    })
}
