ghost use Rattle.std.specs.Prelude.{◌≡◌, ◌≤◌, ◌⊎◌, ◌↔◌, [], ◌∷◌, ◌++◌, length, drop, slice_get, IsErr, IfOk, OnOk, OnErr};
ghost use Rattle.host_face.specs.Faults.{one_more};
ghost use Rattle.host_face.specs.MemConsole.{NextIsListed, called, failed};

use crate::Memory;
use crate::calls::Calls;
use crate::console::{Console, ConsoleFailed};
use std::alloc::Global;
use std::marker::Model;

/// A console in memory. Its output and its notes have a fixed room, in bytes, each for itself, so no
/// call of `Console` takes memory. Calls of `get`, `put` and `note` are numbered from 1 together; a
/// call fails if its number is listed, or if it finds no room, and not otherwise.
#[derive(Drop)]
pub struct MemConsole {
    input: Vec<u8>,
    read: usize,
    output: Vec<u8>,
    notes: Vec<u8>,
    bytes: u32,
    numbered: Calls,
    failures: u64,
}

impl Model for MemConsole {
    ghost use Rattle.std.specs.Prelude.{◌≤◌, drop, length, vec_len, vec_capacity};
    ghost use Rattle.host_face.specs.MemConsole.{ConsoleState};

    ghost Value = { ConsoleState };

    ghost view = { λ a. record {
      left = drop a.read a.input.items;
      shown = a.output.items;
      noted = a.notes.items;
      room = a.bytes;
      listed = a.numbered.listed.items;
      calls = a.numbered.made;
      faults = a.failures;
    } };

    ghost invariant = { λ a. (a.read ≤ vec_len a.input)
        × (vec_len a.output ≤ a.bytes) × (a.bytes ≤ vec_capacity a.output)
        × (vec_len a.notes ≤ a.bytes) × (a.bytes ≤ vec_capacity a.notes) };
}

impl MemConsole {
    /// A console with this input, room for so many bytes of output and as many of notes, and no call
    /// listed. `Memory` where there is no memory for the three.
    pub fn new(alloc: Global, input: &[u8], room: u32) -> Result<MemConsole, Memory>
        ensures { IfOk result (λ console. console ≡ record {
          left = input.now;
          shown = [];
          noted = [];
          room = room;
          listed = [];
          calls = 0;
          faults = 0;
        }) }
    {
        Ok(MemConsole {
            input: Vec::from_slice(alloc, input)?,
            read: 0,
            output: Vec::with_capacity(alloc, room as usize)?,
            notes: Vec::with_capacity(alloc, room as usize)?,
            bytes: room,
            numbered: Calls::new(alloc),
            failures: 0,
        })
    }

    /// Lists the call of this number, from 1 on, to fail. `Memory` where there is none to list it;
    /// then the console stays as it was.
    pub fn fail_at(&mut self, _alloc: Global, call: u32) -> Result<(), Memory>
        ensures listed { OnOk result (self.new ≡ record self.old { listed = self.old.listed ++ call ∷ [] }) }
        ensures refused { OnErr result (self.new ≡ self.old) }
    {
        self.numbered.fail_at(call)
    }

    /// The bytes that were put.
    pub fn shown(&self) -> &[u8]
        ensures { result.now ≡ self.now.shown }
    {
        self.output.as_slice()
    }

    /// The bytes that were noted.
    pub fn noted(&self) -> &[u8]
        ensures { result.now ≡ self.now.noted }
    {
        self.notes.as_slice()
    }

    // Counts a fault.
    fn fail(&mut self) -> ConsoleFailed
        ensures { self.new ≡ record self.old { faults = one_more self.old.faults } }
    {
        self.failures = self.failures.saturating_add(1);
        ConsoleFailed
    }
}

impl Console for MemConsole {
    ghost use Rattle.std.specs.Prelude.{Some};
    ghost use Rattle.host_face.specs.MemConsole.{room_unless};

    ghost left = { λ console. Some console.left };

    ghost shown = { λ console. Some console.shown };

    ghost noted = { λ console. Some console.noted };

    ghost faults = { λ console. console.faults };

    ghost room = { λ console. room_unless console.listed console.room };

    /// The next byte of the input, or nothing at its end. Fails where the call is listed, and then
    /// leaves the input.
    fn get(&mut self) -> Result<Option<u8>, ConsoleFailed>
        ensures fails { IsErr result ↔ NextIsListed self.old }
        ensures byte { IfOk result (λ byte. byte ≡ slice_get self.old.left 0) }
        ensures done { OnOk result (self.new ≡ record (called self.old) { left = drop 1 self.old.left }) }
        ensures undone { OnErr result (self.new ≡ failed self.old) }
        ensures faults { self.old.faults ≤ self.new.faults }
        ensures fits { (length self.old.shown ≤ self.old.room) × (length self.old.noted ≤ self.old.room) }
    {
        if self.numbered.next_fails() {
            return Err(self.fail());
        }
        match self.input.get(self.read) {
            None => Ok(None),
            Some(&byte) => {
                self.read += 1;
                Ok(Some(byte))
            }
        }
    }

    /// Shows a byte. Fails where the call is listed or the output's room is full, and then shows
    /// nothing.
    fn put(&mut self, byte: u8) -> Result<(), ConsoleFailed>
        ensures fails { IsErr result ↔ (NextIsListed self.old ⊎ (length self.old.shown ≡ self.old.room)) }
        ensures done { OnOk result (self.new ≡ record (called self.old) { shown = self.old.shown ++ byte ∷ [] }) }
        ensures undone { OnErr result (self.new ≡ failed self.old) }
        ensures faults { self.old.faults ≤ self.new.faults }
        ensures fits { (length self.old.shown ≤ self.old.room) × (length self.old.noted ≤ self.old.room) }
    {
        if self.numbered.next_fails() || self.output.len() == self.bytes as usize {
            return Err(self.fail());
        }
        match self.output.push(byte) {
            Ok(()) => Ok(()),
            Err(_) => Err(self.fail()),
        }
    }

    /// Notes a byte. Fails where the call is listed or the notes' room is full, and then notes
    /// nothing.
    fn note(&mut self, byte: u8) -> Result<(), ConsoleFailed>
        ensures fails { IsErr result ↔ (NextIsListed self.old ⊎ (length self.old.noted ≡ self.old.room)) }
        ensures done { OnOk result (self.new ≡ record (called self.old) { noted = self.old.noted ++ byte ∷ [] }) }
        ensures undone { OnErr result (self.new ≡ failed self.old) }
        ensures faults { self.old.faults ≤ self.new.faults }
        ensures fits { (length self.old.shown ≤ self.old.room) × (length self.old.noted ≤ self.old.room) }
    {
        if self.numbered.next_fails() || self.notes.len() == self.bytes as usize {
            return Err(self.fail());
        }
        match self.notes.push(byte) {
            Ok(()) => Ok(()),
            Err(_) => Err(self.fail()),
        }
    }
}
