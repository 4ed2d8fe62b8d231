ghost use Rattle.std.specs.Prelude.{◌≡◌, ◌≤◌, ◌⊎◌, ◌↔◌, [], ◌∷◌, ◌++◌, option_copied, IsOkAnd, IfOk, OnOk, OnErr, IsErrOf};
ghost use Rattle.std.specs.FinMap as map;
ghost use Rattle.host_face.specs.Faults.{one_more};
ghost use Rattle.host_face.specs.MemShelf.{NextIsListed, called, load_failed, store_failed};

use crate::Memory;
use crate::calls::Calls;
use crate::shelf::{Shelf, ShelfFail};
use std::alloc::Global;
use std::collections::BTreeMap;
use std::marker::Model;

/// A shelf in memory. Calls of `load` and `store` are numbered from 1 together; a call fails if its
/// number is listed, or if it loads a name that is absent, and not otherwise. A refusal leaves all
/// files as they were. What it stores, it keeps in memory of the allocator that it was made with.
#[derive(Drop)]
pub struct MemShelf {
    alloc: Global,
    files: BTreeMap<String, Vec<u8>>,
    numbered: Calls,
    failed_loads: u64,
    failed_stores: u64,
}

impl Model for MemShelf {
    ghost use Rattle.host_face.specs.MemShelf.{ShelfState, shelf_code, files_of};

    ghost Value = { ShelfState };

    ghost coded = { shelf_code };

    ghost view = { λ a. record {
      kept = files_of a.files.entries;
      listed = a.numbered.listed.items;
      calls = a.numbered.made;
      load_faults = a.failed_loads;
      store_faults = a.failed_stores;
    } };
}

impl MemShelf {
    /// A shelf with no file and no call listed.
    pub fn new(alloc: Global) -> Result<MemShelf, Memory>
        ensures { IsOkAnd result (λ shelf. shelf ≡ record {
          kept = map.empty;
          listed = [];
          calls = 0;
          load_faults = 0;
          store_faults = 0;
        }) }
    {
        Ok(MemShelf {
            alloc,
            files: BTreeMap::new(alloc),
            numbered: Calls::new(alloc),
            failed_loads: 0,
            failed_stores: 0,
        })
    }

    /// Keeps the bytes at the name. `Memory` where there is none to keep them; then the shelf stays
    /// as it was.
    pub fn put_file(&mut self, alloc: Global, name: &str, bytes: &[u8]) -> Result<(), Memory>
        ensures kept { OnOk result
            (self.new ≡ record self.old { kept = map.insert self.old.kept name.now bytes.now }) }
        ensures refused { OnErr result (self.new ≡ self.old) }
    {
        let key = String::from_str(alloc, name)?;
        let copy = Vec::from_slice(alloc, bytes)?;
        self.files.insert(key, copy)?;
        Ok(())
    }

    /// Lists the call of this number, from 1 on, to fail. `Memory` where there is none to list it;
    /// then the shelf stays as it was.
    pub fn fail_at(&mut self, _alloc: Global, call: u32) -> Result<(), Memory>
        ensures listed { OnOk result (self.new ≡ record self.old { listed = self.old.listed ++ call ∷ [] }) }
        ensures refused { OnErr result (self.new ≡ self.old) }
    {
        self.numbered.fail_at(call)
    }

    /// The bytes at the name, or nothing where it is absent.
    pub fn file(&self, name: &str) -> Option<&[u8]>
        ensures { option_copied result ≡ map.get self.now.kept name.now }
    {
        match self.files.get(name) {
            Some(bytes) => Some(bytes.as_slice()),
            None => None,
        }
    }

    // Counts a fault of a load.
    fn fail_load(&mut self) -> ShelfFail
        ensures fault { result ≡ ShelfFail.Failed }
        ensures counted { self.new ≡ record self.old { load_faults = one_more self.old.load_faults } }
        ensures risen { self.old.load_faults ≤ self.new.load_faults }
    {
        self.failed_loads = self.failed_loads.saturating_add(1);
        ShelfFail::Failed
    }

    // Counts a fault of a store.
    fn fail_store(&mut self) -> ShelfFail
        ensures fault { result ≡ ShelfFail.Failed }
        ensures counted { self.new ≡ record self.old { store_faults = one_more self.old.store_faults } }
        ensures risen { self.old.store_faults ≤ self.new.store_faults }
    {
        self.failed_stores = self.failed_stores.saturating_add(1);
        ShelfFail::Failed
    }
}

impl Shelf for MemShelf {
    ghost use Rattle.std.specs.Prelude.{Some};

    ghost kept = { λ shelf. Some shelf.kept };

    ghost load_faults = { λ shelf _. shelf.load_faults };

    ghost store_faults = { λ shelf _. shelf.store_faults };

    /// The bytes at the name. `Failed` where the call is listed or the name is absent; `Memory` where
    /// there is none for the bytes.
    fn load(&mut self, alloc: Global, name: &str) -> Result<Vec<u8>, ShelfFail>
        ensures fails { IsErrOf result ShelfFail.Failed
            ↔ (NextIsListed self.old ⊎ (map.get self.old.kept name.now ≡ None)) }
        ensures bytes { IfOk result (λ bytes. map.get self.old.kept name.now ≡ Some bytes.items) }
        ensures done { OnOk result (self.new ≡ called self.old) }
        ensures undone { IsErrOf result ShelfFail.Failed → self.new ≡ load_failed self.old }
        ensures no_memory { IsErrOf result ShelfFail.Memory → self.new ≡ called self.old }
        ensures load_faults { self.old.load_faults ≤ self.new.load_faults }
    {
        if self.numbered.next_fails() {
            return Err(self.fail_load());
        }
        match self.file(name) {
            Some(bytes) => Ok(Vec::from_slice(alloc, bytes)?),
            None => Err(self.fail_load()),
        }
    }

    /// Keeps the bytes at the name. `Failed` where the call is listed; `Memory` where there is none
    /// for the bytes.
    fn store(&mut self, name: &str, bytes: &[u8]) -> Result<(), ShelfFail>
        ensures fails { IsErrOf result ShelfFail.Failed ↔ NextIsListed self.old }
        ensures done { OnOk result
            (self.new ≡ record (called self.old) { kept = map.insert self.old.kept name.now bytes.now }) }
        ensures undone { IsErrOf result ShelfFail.Failed → self.new ≡ store_failed self.old }
        ensures no_memory { IsErrOf result ShelfFail.Memory → self.new ≡ called self.old }
        ensures store_faults { self.old.store_faults ≤ self.new.store_faults }
    {
        if self.numbered.next_fails() {
            return Err(self.fail_store());
        }
        self.put_file(self.alloc, name, bytes)?;
        Ok(())
    }
}
