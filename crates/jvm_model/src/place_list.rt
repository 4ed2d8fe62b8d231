//! The places of fields, found at the cost of a look-up.

ghost use Rattle.std.specs.Prelude.{◌≡◌, true, [], ◌∷◌, ◌++◌, length, IfOk};
ghost use Rattle.jvm_model.specs.ImageNumbering.{place_listed};

use class_pool::MemberId;
use indexmap::IndexMap;
use std::alloc::{AllocError, Global};
use std::marker::Model;

/// Fields with their places, each field once. Contracts see the list.
#[derive(Debug, Drop)]
pub struct PlaceList {
    map: IndexMap<MemberId, u16>,
}

impl Model for PlaceList {
    ghost use Rattle.std.specs.Prelude.{List, map as each};
    ghost use Rattle.jvm_model.specs.declared.numbers.FieldPlace.{FieldPlace};

    ghost Value = { List FieldPlace };

    ghost view = { λ list. each (λ entry. record { member = entry.0; place = entry.1 }) list.map.entries };
}

impl PlaceList {
    /// No fields; takes no memory.
    pub fn new(alloc: Global) -> PlaceList
        ensures { result ≡ [] }
    {
        PlaceList {
            map: IndexMap::new(alloc),
        }
    }

    /// Adds a field after the others, and tells whether it was not there.
    pub fn push(&mut self, member: MemberId, place: u16) -> Result<bool, AllocError>
        ensures { IfOk result (λ new. new ≡ true → self.new ≡ self.old ++ record { member = member; place = place } ∷ []) }
    {
        let old = self.map.insert(member, place)?;
        Ok(old.is_none())
    }

    /// How many fields there are.
    pub fn len(&self) -> usize
        ensures { result ≡ length self.now }
    {
        self.map.len()
    }

    /// The place of a field; 0 where it is not there.
    pub fn place_of(&self, member: MemberId) -> u16
        ensures { result ≡ place_listed self.now member }
    {
        match self.map.get(&member) {
            Some(place) => *place,
            None => 0,
        }
    }
}
