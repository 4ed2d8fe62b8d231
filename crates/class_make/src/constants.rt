//! The constants of a draft: where they stand, and how one is added or taken off again.

ghost use Rattle.std.specs.Prelude.{◌≡◌, ◌+◌, ◌≤◌, [], ◌++◌, None, Some, Err, length, take, IsSome, IfOk, IfErr, OnOk, OnErr};
ghost use Rattle.class_pool.specs.declared.pool.Const.TheVariants.{Utf8, Class};
ghost use Rattle.class_pool.specs.Pool.{Slots, AreSpaced, width};
ghost use Rattle.class_make.specs.declared.refusal.DraftRefusal.TheVariants.{Full};
ghost use Rattle.class_make.specs.Entries.{index_of, text_index, slots_of, with_entry, with_text, with_class};
ghost use Rattle.class_make.specs.Numbered.{AreOf};
ghost use Rattle.class_make.specs.Draft.{with_field_texts, IsOver, IsUnplaced};

use crate::entries::text_entry;
use crate::refusal::DraftRefusal;
use class_pool::Const;
use indexmap::IndexMap;
use std::alloc::{AllocError, Global};
use std::marker::Model;

/// How many places a pool may have: its count fits two bytes (JVMS 4.1).
const MOST_SLOTS: u16 = 65534;

/// Constants in the order in which they were first seen, each with the index of its first place (JVMS
/// 4.4), so that one is found at the cost of a look-up. Contracts see their places.
#[derive(Debug, Drop)]
pub(crate) struct Constants {
    indexes: IndexMap<Const, u16>,
    taken: u16,
}

impl Model for Constants {
    ghost use Rattle.std.specs.Prelude.{List, Option};
    ghost use Rattle.indexmap.specs.IndexMap.{keys};
    ghost use Rattle.class_pool.specs.declared.pool.Const.{Const};
    ghost use Rattle.class_make.specs.Numbered.{slots_of_all, IsNumbered};

    ghost Value = { List (Option Const) };

    ghost view = { λ constants. slots_of_all (keys constants.indexes) };

    ghost invariant = { λ constants. IsNumbered constants.indexes.entries constants.taken };
}

/// The indexes of the name and the descriptor of a member.
#[derive(Clone, Copy)]
pub(crate) struct MemberTexts {
    pub(crate) name: u16,
    pub(crate) descriptor: u16,
}

/// How many places a constant takes: a long and a double take two (JVMS 4.4.5).
fn width(constant: &Const) -> u16
    ensures { result ≡ width constant.now }
{
    match constant {
        Const::Long(_) | Const::Double(_) => 2,
        _ => 1,
    }
}

/// Adds the places of a constant after the others.
fn push_slots(slots: &mut Vec<Option<Const>>, constant: Const) -> Result<(), AllocError>
    ensures { OnOk result (slots.new.items ≡ slots.old.items ++ slots_of constant) }
{
    let width = width(&constant);
    slots.push(Some(constant))?;
    if width > 1 {
        slots.push(None)?;
    }
    Ok(())
}

impl Constants {
    /// No constants; takes no memory.
    pub(crate) fn new(alloc: Global) -> Constants
        ensures { result ≡ [] }
    {
        Constants {
            indexes: IndexMap::new(alloc),
            taken: 0,
        }
    }

    /// Adds a constant that is not there after the others, and answers its index.
    fn push(&mut self, constant: Const) -> Result<u16, DraftRefusal>
        requires { index_of self.old constant ≡ None }
        ensures placed { OnOk result (self.new ≡ self.old ++ slots_of constant) }
        ensures index { IfOk result (λ index. index ≡ length self.old + 1) }
        ensures unchanged { OnErr result (self.new ≡ self.old) }
        ensures stays_within { OnOk result (length self.new ≤ 65534) }
        ensures refused { IfErr result (IsUnplaced (self.old ++ slots_of constant)) }
        ensures full { IsOver (self.old ++ slots_of constant) → result ≡ Err Full }
    {
        let width = width(&constant);
        if width > MOST_SLOTS - self.taken {
            return Err(DraftRefusal::Full);
        }
        let index = self.taken + 1;
        self.indexes.insert(constant, index)?;
        self.taken += width;
        Ok(index)
    }

    /// The index of a constant, where it is there.
    fn index_of(&self, constant: &Const) -> Option<u16>
        ensures index { result ≡ index_of self.now constant.now }
        ensures within { length self.now ≤ 65534 }
    {
        self.indexes.get(constant).copied()
    }

    /// The index of a constant, which is added after the others where it is not there.
    pub(crate) fn slot(&mut self, constant: Const) -> Result<u16, DraftRefusal>
        ensures placed { OnOk result (self.new ≡ with_entry self.old constant) }
        ensures index { IfOk result (λ index. index_of self.new constant ≡ Some index) }
        ensures unchanged { OnErr result (self.new ≡ self.old) }
        ensures stays_within { OnOk result (length self.new ≤ 65534) }
        ensures refused { IfErr result (IsUnplaced (with_entry self.old constant)) }
        ensures full { IsOver (with_entry self.old constant) → result ≡ Err Full }
    {
        match self.index_of(&constant) {
            Some(index) => Ok(index),
            None => self.push(constant),
        }
    }

    /// The index of a text, which is added where it is not there.
    pub(crate) fn slot_text(&mut self, alloc: Global, text: &[u8]) -> Result<u16, DraftRefusal>
        ensures placed { OnOk result (self.new ≡ with_text self.old text.now) }
        ensures index { IfOk result (λ index. index_of self.new (Utf8 text.now) ≡ Some index) }
        ensures unchanged { OnErr result (self.new ≡ self.old) }
        ensures stays_within { OnOk result (length self.new ≤ 65534) }
        ensures refused { IfErr result (IsUnplaced (with_text self.old text.now)) }
    {
        let constant = text_entry(alloc, text)?;
        self.slot(constant)
    }

    /// The index of the class of a name; both are added where they are not there.
    pub(crate) fn slot_class(&mut self, alloc: Global, name: &[u8]) -> Result<u16, DraftRefusal>
        ensures placed { OnOk result (self.new ≡ with_class self.old name.now) }
        ensures named { OnOk result (IsSome (index_of self.new (Utf8 name.now))) }
        ensures index { IfOk result (λ index. index_of self.new (Class (text_index self.new name.now)) ≡ Some index) }
        ensures stays_within { OnOk result (length self.new ≤ 65534) }
        ensures refused { IfErr result (IsUnplaced (with_class self.old name.now)) }
    {
        let name_index = self.slot_text(alloc, name)?;
        self.slot(Const::Class(name_index))
    }

    /// The indexes of a name and a descriptor, which are added where they are not there.
    pub(crate) fn slot_member_texts(
        &mut self,
        alloc: Global,
        name: &[u8],
        descriptor: &[u8],
    ) -> Result<MemberTexts, DraftRefusal>
        ensures placed { OnOk result (self.new ≡ with_field_texts self.old name.now descriptor.now) }
        ensures name_index { IfOk result (λ texts. index_of self.new (Utf8 name.now) ≡ Some texts.name) }
        ensures descriptor_index { IfOk result (λ texts. index_of self.new (Utf8 descriptor.now) ≡ Some texts.descriptor) }
        ensures begins { take (length self.old) self.new ≡ self.old }
        ensures stays_within { OnOk result (length self.new ≤ 65534) }
        ensures refused { IfErr result (IsUnplaced (with_field_texts self.old name.now descriptor.now)) }
    {
        let name = self.slot_text(alloc, name)?;
        let descriptor = self.slot_text(alloc, descriptor)?;
        Ok(MemberTexts { name, descriptor })
    }

    /// How many constants there are.
    pub(crate) fn count(&self) -> usize
        ensures counted { AreOf result self.now }
    {
        self.indexes.len()
    }

    /// Takes the constants after the first of this number off.
    pub(crate) fn keep(&mut self, count: usize)
        // Those that were there when there were so many are there again.
        ensures kept { (before : Slots) → AreOf count before → take (length before) self.old ≡ before → self.new ≡ before }
    {
        let suffix = match self.indexes.get_index(count) {
            Some((_, index)) => *index,
            None => return,
        };
        self.taken = suffix - 1;
        self.indexes.truncate(count);
    }

    /// The places of the constants.
    pub(crate) fn into_slots(self, alloc: Global) -> Result<Vec<Option<Const>>, AllocError>
        ensures slots { IfOk result (λ slots. slots.items ≡ self) }
        ensures within { IfOk result (λ slots. length slots.items ≤ 65534) }
        ensures spaced { IfOk result (λ slots. AreSpaced slots.items) }
    {
        let Constants { indexes, taken: _ } = self;
        let mut slots = Vec::new(alloc);
        for constant in indexes.into_keys() {
            push_slots(&mut slots, constant)?;
        }
        Ok(slots)
    }
}
