//! The classes that a lookup visits, each once.

ghost use Rattle.std.specs.Prelude.{◌≡◌, [], OnOk, IfOk};
ghost use Rattle.std.specs.Option.{option_to_list};
ghost use Rattle.class_tree.specs.Ways.{seen_after, way_at as way_at_class, IsWayOver};

use indexmap::IndexSet;
use std::alloc::{AllocError, Global};
use std::marker::Model;

/// Classes in the order in which they were first seen. Contracts see their list.
#[derive(Debug, Drop)]
pub(crate) struct Way {
    classes: IndexSet<u16>,
}

impl Model for Way {
    ghost use Rattle.std.specs.Prelude.{ℕ, List};

    ghost Value = { List ℕ };

    ghost view = { λ way. way.classes.keys };
}

impl Way {
    /// No classes; takes no memory.
    pub(crate) fn new(alloc: Global) -> Way
        ensures { result ≡ [] }
    {
        Way {
            classes: IndexSet::new(alloc),
        }
    }

    /// Adds the classes in their order, but for those that were seen before.
    pub(crate) fn extend(&mut self, classes: &[u16]) -> Result<(), AllocError>
        ensures { OnOk result (self.new ≡ seen_after self.old classes.now) }
    {
        for class in classes {
            self.classes.insert(*class)?;
        }
        Ok(())
    }

    /// Adds a class, where there is one that was not seen before.
    pub(crate) fn add(&mut self, class: Option<u16>) -> Result<(), AllocError>
        ensures { OnOk result (self.new ≡ seen_after self.old (option_to_list class)) }
    {
        match class {
            Some(class) => self.extend(&[class]),
            None => Ok(()),
        }
    }

    pub(crate) fn as_slice(&self) -> &[u16]
        ensures { result.now ≡ self.now }
    {
        self.classes.as_slice()
    }
}

/// The way of a class; none where there is none.
pub(crate) fn way_at(ways: &[Way], class: usize) -> &[u16]
    ensures { result.now ≡ way_at_class ways.now class }
{
    match ways.get(class) {
        Some(way) => way.as_slice(),
        None => &[],
    }
}

/// The way of a class: its own list, and after it the ways of those above it.
pub(crate) fn way_over(
    alloc: Global,
    ways: &[Way],
    own: &[u16],
    above: &[u16],
) -> Result<Way, AllocError>
    ensures { IfOk result (λ way. IsWayOver ways.now own.now above.now way) }
{
    let mut way = Way::new(alloc);
    way.extend(own)?;
    for upper in above {
        way.extend(way_at(ways, usize::from(*upper)))?;
    }
    Ok(way)
}
