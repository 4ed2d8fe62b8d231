ghost use Rattle.std.specs.Prelude.{◌≡◌, ◌<◌, ℕ, [], false, length, replicate, IfOk, OnOk};
ghost use Rattle.code_reach.specs.Visits.{Reaches};

use std::alloc::{AllocError, Global};

/// The instructions that are reached, as a flag for each index, and the indexes of those that are still to be
/// visited.
#[derive(Debug, Drop)]
pub(crate) struct Visits {
    pub(crate) marks: Vec<bool>,
    pub(crate) todo: Vec<usize>,
}

impl Visits {
    /// None of so many instructions.
    pub(crate) fn none(alloc: Global, count: usize) -> Result<Visits, AllocError>
        ensures { IfOk result (λ visits. (visits.marks.items ≡ replicate count false) × (visits.todo.items ≡ [])) }
    {
        let marks = vec![in alloc; false; count]?;
        Ok(Visits {
            marks,
            todo: Vec::new(alloc),
        })
    }

    /// Puts the instruction at an index into the set, and among those that are to be visited, where it is new
    /// there. An index past the end changes nothing.
    pub(crate) fn reach(&mut self, index: usize) -> Result<(), AllocError>
        ensures { OnOk result (Reaches (λ other. other ≡ index) self.old self.new) }
    {
        if index < self.marks.len() && !self.marks[index] {
            self.marks[index] = true;
            self.todo.push(index)?;
        }
        Ok(())
    }
}
