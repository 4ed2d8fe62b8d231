//! The selectors of an image, found at the cost of a look-up.

ghost use Rattle.std.specs.Prelude.{◌≡◌, [], ◌∷◌, ◌++◌, if◌then◌else◌, length, position, OnOk, IfOk};
ghost use Rattle.std.specs.List.{list_any};
ghost use Rattle.jvm_model.specs.ImageNumbering.{is_selector};

use crate::numbers::Selector;
use class_pool::Text;
use indexmap::IndexSet;
use item_list::Items;
use std::alloc::{AllocError, Global};
use std::marker::Model;

/// Names and descriptors of methods, each pair once and in the order in which they were first seen. Contracts see the
/// list.
#[derive(Debug, Drop)]
pub struct SelectorList {
    set: IndexSet<Selector>,
}

impl Model for SelectorList {
    ghost use Rattle.std.specs.Prelude.{List};
    ghost use Rattle.jvm_model.specs.declared.numbers.Selector.{Selector as Pair};

    ghost Value = { List Pair };

    ghost view = { λ list. list.set.keys };
}

/// A text of its own.
fn text_of(alloc: Global, bytes: &[u8]) -> Result<Text, AllocError>
    ensures { IfOk result (λ text. text ≡ bytes.now) }
{
    Ok(Items::from_vec(Vec::from_slice(alloc, bytes)?))
}

/// The selector of a name and a descriptor.
fn selector_of(alloc: Global, name: &[u8], descriptor: &[u8]) -> Result<Selector, AllocError>
    ensures { IfOk result (λ selector. selector ≡ record { name = name.now; descriptor = descriptor.now }) }
{
    Ok(Selector {
        name: text_of(alloc, name)?,
        descriptor: text_of(alloc, descriptor)?,
    })
}

impl SelectorList {
    /// No selectors; takes no memory.
    pub fn new(alloc: Global) -> SelectorList
        ensures { result ≡ [] }
    {
        SelectorList {
            set: IndexSet::new(alloc),
        }
    }

    /// Adds the selector of a name and a descriptor after the others, where it is not there.
    pub fn add(&mut self, alloc: Global, name: &[u8], descriptor: &[u8]) -> Result<(), AllocError>
        ensures { OnOk result (self.new ≡ (if list_any (is_selector name.now descriptor.now) self.old then self.old else self.old ++ record { name = name.now; descriptor = descriptor.now } ∷ [])) }
    {
        let selector = selector_of(alloc, name, descriptor)?;
        self.set.insert(selector)?;
        Ok(())
    }

    /// How many selectors there are.
    pub fn len(&self) -> usize
        ensures { result ≡ length self.now }
    {
        self.set.len()
    }

    /// The selectors in their order.
    pub fn as_slice(&self) -> &[Selector]
        ensures { result.now ≡ self.now }
    {
        self.set.as_slice()
    }

    /// The position of the selector of a name and a descriptor.
    pub fn position_of(
        &self,
        alloc: Global,
        name: &[u8],
        descriptor: &[u8],
    ) -> Result<Option<usize>, AllocError>
        ensures { IfOk result (λ found. found ≡ position (is_selector name.now descriptor.now) self.now) }
    {
        let selector = selector_of(alloc, name, descriptor)?;
        Ok(self.set.get_index_of(&selector))
    }
}
