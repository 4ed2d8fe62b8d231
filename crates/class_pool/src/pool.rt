ghost use Rattle.std.specs.Prelude.{◌≡◌, ◌↔◌, ◌+◌, ◌<◌, None, length};
ghost use Rattle.std.specs.Option.{option_copied};
ghost use Rattle.class_pool.specs.Pool.{entry_at as entry_at_index};

use item_list::Items;
use std::marker::Model;

/// A list of bytes, as a `CONSTANT_Utf8_info` holds them.
pub type Text = Items<u8>;

/// An entry of the constant pool (JVMS 4.4). An index of another entry is a `u16`.
#[derive(Debug, Drop, PartialEq, Eq, Hash)]
pub enum Const {
    Utf8(Text),
    Integer(i32),
    Float(u32),
    Long(u64),
    Double(u64),
    Class(u16),
    String(u16),
    Field(u16, u16),
    Method(u16, u16),
    InterfaceMethod(u16, u16),
    NameAndType(u16, u16),
    MethodHandle(u8, u16),
    MethodType(u16),
    InvokeDynamic(u16, u16),
}

/// The constant pool of a class (JVMS 4.1, 4.4). The place of index 1 comes first; the second place
/// of a long or a double has no entry.
#[derive(Debug, Drop)]
pub struct Pool {
    slots: Vec<Option<Const>>,
}

impl Model for Pool {
    ghost use Rattle.std.specs.Prelude.{List, Option};
    ghost use Rattle.class_pool.specs.declared.pool.Const.{Const};
    ghost use Rattle.class_pool.specs.Pool.{AreKept};

    ghost Value = { List (Option Const) };

    ghost view = { λ pool. pool.slots.items };

    ghost invariant = { λ pool. AreKept pool.slots.items };
}

/// The entry at an index of these places, where there is one.
fn entry_in(slots: &[Option<Const>], index: u16) -> Option<&Const>
    ensures { option_copied result ≡ entry_at_index slots.now index }
{
    if index == 0 {
        return None;
    }
    slots.get(usize::from(index - 1))?.as_ref()
}

impl Pool {
    ghost use Rattle.class_pool.specs.Pool.{entry_at, utf8_at, class_name_at, integer_at, AreSpaced, LacksEntry};

    /// The pool with these places, that of index 1 first. A place without an entry is the second one of a long
    /// or a double.
    pub fn from_slots(slots: Vec<Option<Const>>) -> Pool
        requires count { length slots.items < 65535 }
        requires spaced { AreSpaced slots.items }
        ensures { result ≡ slots.items }
    {
        Pool { slots }
    }

    /// The entry at an index. There is none at 0, from the count on, and at the second place of a
    /// long or a double.
    pub fn get(&self, index: u16) -> Option<&Const>
        ensures entry { option_copied result ≡ entry_at self.now index }
        ensures none { (result ≡ None) ↔ LacksEntry self.now index }
    {
        entry_in(self.slots.as_slice(), index)
    }

    /// The bytes of the text at an index (JVMS 4.4.7), where there is one.
    pub fn utf8(&self, index: u16) -> Option<&[u8]>
        ensures { option_copied result ≡ utf8_at self.now index }
    {
        match self.get(index)? {
            Const::Utf8(text) => Some(text.as_slice()),
            _ => None,
        }
    }

    /// The name of the class at an index (JVMS 4.4.1), where there is one.
    pub fn class_name(&self, index: u16) -> Option<&[u8]>
        ensures { option_copied result ≡ class_name_at self.now index }
    {
        match self.get(index)? {
            Const::Class(name) => self.utf8(*name),
            _ => None,
        }
    }

    /// The whole number at an index (JVMS 4.4.4), where there is one.
    pub fn integer(&self, index: u16) -> Option<i32>
        ensures { result ≡ integer_at self.now index }
    {
        match self.get(index)? {
            Const::Integer(value) => Some(*value),
            _ => None,
        }
    }

    /// The places, that of index 1 first.
    pub fn slots(&self) -> &[Option<Const>]
        ensures value { result.now ≡ self.now }
        ensures count { length result.now < 65535 }
    {
        self.slots.as_slice()
    }

    /// One more than the number of places, as `constant_pool_count` is.
    pub fn count(&self) -> u16
        ensures { result ≡ length self.now + 1 }
    {
        self.slots.len() as u16 + 1
    }
}
