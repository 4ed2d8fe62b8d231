ghost use Rattle.std.specs.Prelude.{◌≡◌, ℕ, List, Option, Some, option_map, IfOk, IfSome, OnOk, OnErr, IsErrOf};
ghost use Rattle.std.specs.FinMap as map;
ghost use Rattle.host_face.specs.Faults.{Rose};
ghost use Rattle.host_face.specs.Shelf.{Files, NeverFell, ChangesOnly};

use crate::Memory;
use std::alloc::Global;

/// Why a shelf refused a call.
#[derive(Clone, Copy, Debug, PartialEq, Eq)]
pub enum ShelfFail {
    /// The shelf failed, or has no such file: its count of such faults of the name rose.
    Failed,
    /// There was no memory for the bytes.
    Memory,
}

impl From<Memory> for ShelfFail {
    ghost use Rattle.host_face.specs.declared.shelf.ShelfFail.{ShelfFail};

    ghost from_gives = { λ _ fail. fail ≡ ShelfFail.Memory };

    fn from(_memory: Memory) -> ShelfFail {
        ShelfFail::Memory
    }
}

/// Keeps lists of bytes under names.
pub trait Shelf {
    /// What is kept, by name, where the shelf tells it.
    ghost kept: { Self → Option Files };

    /// How often loads of a name failed. It never falls, and may be one number for all names.
    ghost load_faults: { Self → List ℕ → ℕ };

    /// How often stores of a name failed. It never falls, and may be one number for all names.
    ghost store_faults: { Self → List ℕ → ℕ };

    /// The bytes that are kept at the name. A missing file is a fault of the load.
    fn load(&mut self, alloc: Global, name: &str) -> Result<Vec<u8>, ShelfFail>
        ensures loaded { IfOk result (λ bytes. IfSome (kept self.old) (λ files. map.get files name.now ≡ Some bytes.items)) }
        ensures failed { IsErrOf result ShelfFail.Failed → Rose (load_faults self.old name.now) (load_faults self.new name.now) }
        ensures kept { kept self.new ≡ kept self.old }
        ensures load_faults { NeverFell (load_faults self.old) (load_faults self.new) }
        ensures store_faults { NeverFell (store_faults self.old) (store_faults self.new) };

    /// Keeps the bytes at the name. After a refusal each other name has what it had.
    fn store(&mut self, name: &str, bytes: &[u8]) -> Result<(), ShelfFail>
        ensures stored { OnOk result (kept self.new ≡ option_map (λ files. map.insert files name.now bytes.now) (kept self.old)) }
        ensures refused { OnErr result (ChangesOnly name.now (kept self.old) (kept self.new)) }
        ensures failed { IsErrOf result ShelfFail.Failed → Rose (store_faults self.old name.now) (store_faults self.new name.now) }
        ensures load_faults { NeverFell (load_faults self.old) (load_faults self.new) }
        ensures store_faults { NeverFell (store_faults self.old) (store_faults self.new) };
}
