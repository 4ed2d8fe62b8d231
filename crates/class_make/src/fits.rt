//! Which records can be written: those whose lengths and counts fit their fields.

ghost use Rattle.std.specs.Prelude.{◌≡◌};
ghost use Rattle.std.specs.List.{list_all};
ghost use Rattle.class_make.specs.Written.{fits_slot, fits_slots, fits_code, fits_codes, fits_members, fits};

use class_file::{ClassFile, CodeAttr, Member};
use class_pool::Const;

/// How many items a count of two bytes can tell, and one more.
const TOO_MANY: usize = 65536;

/// A text fits its length.
fn fits_slot(slot: &Option<Const>) -> bool
    ensures { result ≡ fits_slot slot.now }
{
    match slot {
        Some(entry) => match entry {
            Const::Utf8(text) => text.len() < TOO_MANY,
            _ => true,
        },
        None => true,
    }
}

fn fits_slots(slots: &[Option<Const>]) -> bool
    ensures { result ≡ fits_slots slots.now }
{
    slots.iter().all(|slot| fits_slot(slot))
}

/// The bytes of the code fit their length, and the handlers their count.
fn fits_code(code: &Option<CodeAttr>) -> bool
    ensures { result ≡ fits_code code.now }
{
    match code {
        Some(code) => code.code.len() < TOO_MANY && code.handlers.len() < TOO_MANY,
        None => true,
    }
}

fn fits_codes(members: &[Member]) -> bool
    ensures { result ≡ fits_codes members.now }
{
    members.iter().all(|member| fits_code(&member.code))
}

fn fits_members(members: &[Member]) -> bool
    ensures { result ≡ fits_members members.now }
{
    members.len() < TOO_MANY && fits_codes(members)
}

/// The lengths and counts of a record fit their fields.
pub(crate) fn fits(file: &ClassFile) -> bool
    ensures { result ≡ fits file.now }
{
    (fits_slots(file.pool.slots()) && file.interfaces.len() < TOO_MANY)
        && (fits_members(file.fields.as_slice()) && fits_members(file.methods.as_slice()))
}
