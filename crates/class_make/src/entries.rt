//! Entries of a constant pool (JVMS 4.4): where one stands, and the entry of a text.

ghost use Rattle.std.specs.Prelude.{◌≡◌, ◌≤◌, length, IfOk};
ghost use Rattle.class_pool.specs.declared.pool.Const.TheVariants.{Utf8};
ghost use Rattle.class_make.specs.Entries.{is_entry, index_of};

use class_pool::Const;
use item_list::Items;
use std::alloc::{AllocError, Global};

/// The place has this entry.
fn is_entry(entry: &Const, slot: &Option<Const>) -> bool
    ensures { result ≡ is_entry entry.now slot.now }
{
    match slot {
        Some(other) => other == entry,
        None => false,
    }
}

/// The index of the first place that has this entry.
pub(crate) fn index_of(slots: &[Option<Const>], entry: &Const) -> Option<u16>
    requires { length slots.now ≤ 65534 }
    ensures { result ≡ index_of slots.now entry.now }
{
    let mut index = 1;
    for slot in slots {
        if is_entry(entry, slot) {
            return Some(index);
        }
        index += 1;
    }
    None
}

/// The entry of a text (JVMS 4.4.7).
pub(crate) fn text_entry(alloc: Global, text: &[u8]) -> Result<Const, AllocError>
    ensures { IfOk result (λ entry. entry ≡ Utf8 text.now) }
{
    Ok(Const::Utf8(Items::from_vec(Vec::from_slice(alloc, text)?)))
}
