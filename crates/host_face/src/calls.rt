ghost use Rattle.std.specs.Prelude.{◌≡◌, [], ◌∷◌, ◌++◌, ◌↔◌, IsTrue, OnOk, OnErr, Contains};
ghost use Rattle.host_face.specs.Faults.{one_more};

use crate::Memory;
use std::alloc::Global;

/// Numbers calls from 1 on, and knows which of them are to fail.
#[derive(Drop)]
pub(crate) struct Calls {
    /// The numbers of the calls that are to fail.
    pub(crate) listed: Vec<u64>,
    /// How many calls were made.
    pub(crate) made: u64,
}

impl Calls {
    pub(crate) fn new(alloc: Global) -> Calls
        ensures listed { result.listed.items ≡ [] }
        ensures made { result.made ≡ 0 }
    {
        Calls {
            listed: Vec::new(alloc),
            made: 0,
        }
    }

    pub(crate) fn fail_at(&mut self, call: u32) -> Result<(), Memory>
        ensures listed { OnOk result (self.new.listed.items ≡ self.old.listed.items ++ call ∷ []) }
        ensures refused { OnErr result (self.new.listed.items ≡ self.old.listed.items) }
        ensures made { self.new.made ≡ self.old.made }
    {
        self.listed.push(u64::from(call))?;
        Ok(())
    }

    /// Counts a call, and answers whether it is to fail.
    pub(crate) fn next_fails(&mut self) -> bool
        ensures fails { IsTrue result ↔ Contains self.old.listed.items (one_more self.old.made) }
        ensures listed { self.new.listed.items ≡ self.old.listed.items }
        ensures made { self.new.made ≡ one_more self.old.made }
    {
        self.made = self.made.saturating_add(1);
        self.listed.contains(&self.made)
    }
}
