ghost use Rattle.std.specs.Prelude.{◌≡◌, [], ◌∷◌, ◌++◌, OnOk, MatchOption};

use std::alloc::{AllocError, Global};
use std::marker::Model;

/// The indexes of handlers that wait at a node of the tree.
#[derive(Debug, Drop)]
pub(crate) struct Waiting {
    indexes: Vec<usize>,
}

impl Model for Waiting {
    ghost use Rattle.std.specs.Prelude.{ℕ, List};

    ghost Value = { List ℕ };

    ghost view = { λ waiting. waiting.indexes.items };
}

impl Waiting {
    pub(crate) fn new(alloc: Global) -> Waiting
        ensures { result ≡ [] }
    {
        Waiting {
            indexes: Vec::new(alloc),
        }
    }

    pub(crate) fn push(&mut self, index: usize) -> Result<(), AllocError>
        ensures { OnOk result (self.new ≡ self.old ++ index ∷ []) }
    {
        self.indexes.push(index)?;
        Ok(())
    }

    /// Takes the last one.
    pub(crate) fn pop(&mut self) -> Option<usize>
        ensures { MatchOption result ((self.old ≡ []) × (self.new ≡ [])) (λ index. self.old ≡ self.new ++ index ∷ []) }
    {
        self.indexes.pop()
    }
}
