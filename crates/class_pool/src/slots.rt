//! The constant pool as a whole (JVMS 4.1, 4.4): its count, its places, and what its entries name.

ghost use Rattle.std.specs.Prelude.{◌≡◌, ◌⊎◌, ◌<◌, ◌≤◌, ◌-◌, ℕ, false, Ok, Err, List, Option, IfOk, IfErr, length, drop};
ghost use Rattle.class_pool.specs.declared.refusal.PoolRefusal.{PoolRefusal as Refusal};
ghost use Rattle.class_pool.specs.declared.refusal.PoolRefusal.TheVariants.{Memory};
ghost use Rattle.byte_read.specs.Reading.{Answers};
ghost use Rattle.class_pool.specs.Pool.{Slots, is_linked, is_wide, IsPoolAt};
ghost use Rattle.class_pool.specs.PoolRefused.{IsRefused, IsRefusedAtOnce, Shows, ShowsGood, Gives};
ghost use Rattle.class_pool.specs.PoolReading.{count_at, start_at, slot_at, is_first_of_two, slots_at, is_slot_linked, first_unlinked, pool_at, pool_from};

use crate::entry::entry_at;
use crate::pool::{Const, Pool};
use crate::refusal::PoolRefusal;
use byte_read::u2_at;
use std::alloc::Global;

/// The first and the last kind of a method handle (JVMS table 5.4.3.5-A).
const REF_GET_FIELD: u8 = 1;

const REF_INVOKE_INTERFACE: u8 = 9;

/// The entry takes two places (JVMS 4.4.5).
fn is_wide(entry: &Const) -> bool
    ensures { result ≡ is_wide entry.now }
{
    matches!(entry, Const::Long(_) | Const::Double(_))
}

/// The place is the first of two.
fn is_first_of_two(slot: &Option<Const>) -> bool
    ensures { result ≡ is_first_of_two slot.now }
{
    match slot {
        Some(entry) => is_wide(entry),
        None => false,
    }
}

/// The place at an index: an entry, or none where the place is the second of two.
#[tactic(auto, unfolding(crate::specs::PoolReading::slot_at))]
fn slot_at(
    alloc: Global,
    second: bool,
    index: u16,
    room: u16,
    bytes: &[u8],
) -> Result<(Option<Const>, &[u8]), PoolRefusal>
    ensures { ShowsGood (λ x. (x.0, x.1.now)) result (slot_at second index room bytes.now) }
{
    if second {
        return Ok((None, bytes));
    }
    let (entry, rest) = entry_at(alloc, index, room, bytes)?;
    Ok((Some(entry), rest))
}

/// The places from index 1 up to the count.
fn slots_at(
    alloc: Global,
    count: u16,
    bytes: &[u8],
) -> Result<(Vec<Option<Const>>, &[u8]), PoolRefusal>
    requires { 1 ≤ count }
    ensures value { Shows (λ x. (x.0.items, x.1.now)) result (slots_at false 1 (count - 1) bytes.now) }
    ensures first { (why : Refusal) → 1 < count → slot_at false 1 (count - 1) bytes.now ≡ Err why → result ≡ Err why }
{
    let mut slots = Vec::new(alloc);
    let mut rest = bytes;
    let mut second = false;
    for index in 1..count {
        let (slot, after) = slot_at(alloc, second, index, count - index, rest)?;
        second = is_first_of_two(&slot);
        slots.push(slot)?;
        rest = after;
    }
    Ok((slots, rest))
}

/// The entries that an entry names are there and of their kinds.
fn is_linked(pool: &Pool, entry: &Const) -> bool
    ensures { result ≡ is_linked pool.now entry.now }
{
    match entry {
        Const::Utf8(_) => true,
        Const::Integer(_) | Const::Float(_) | Const::Long(_) | Const::Double(_) => true,
        Const::Class(name) => pool.is_utf8(*name),
        Const::String(text) => pool.is_utf8(*text),
        Const::Field(class, name_and_type)
        | Const::Method(class, name_and_type)
        | Const::InterfaceMethod(class, name_and_type) => {
            pool.is_class(*class) && pool.is_name_and_type(*name_and_type)
        }
        Const::NameAndType(name, descriptor) => pool.is_utf8(*name) && pool.is_utf8(*descriptor),
        Const::MethodHandle(kind, index) => {
            *kind >= REF_GET_FIELD && *kind <= REF_INVOKE_INTERFACE && pool.get(*index).is_some()
        }
        Const::MethodType(descriptor) => pool.is_utf8(*descriptor),
        Const::InvokeDynamic(_, name_and_type) => pool.is_name_and_type(*name_and_type),
    }
}

/// The entry at a place, where there is one, is linked.
fn is_slot_linked(pool: &Pool, slot: &Option<Const>) -> bool
    ensures { result ≡ is_slot_linked pool.now slot.now }
{
    match slot {
        Some(entry) => is_linked(pool, entry),
        None => true,
    }
}

/// The index of the first entry that names what is not there.
fn first_unlinked(pool: &Pool) -> Option<u16>
    ensures { result ≡ first_unlinked pool.now 1 pool.now }
{
    let slots = pool.slots();
    let mut index = 1;
    for slot in slots {
        if !is_slot_linked(pool, slot) {
            return Some(index);
        }
        index += 1;
    }
    None
}

/// The count, which is not 0, and the bytes after it.
#[tactic(auto, unfolding(crate::specs::PoolReading::count_at))]
fn count_at(bytes: &[u8]) -> Result<(u16, &[u8]), PoolRefusal>
    ensures { Answers (λ x. (x.0, x.1.now)) result (count_at bytes.now) }
{
    let (count, rest) = u2_at(PoolRefusal::Truncated, bytes)?;
    if count == 0 {
        return Err(PoolRefusal::BadIndex { index: 0 });
    }
    Ok((count, rest))
}

/// The pool at the prefix of the bytes, and the bytes after it.
#[tactic(auto, unfolding(crate::specs::PoolReading::pool_at, crate::specs::PoolReading::count_at))]
fn pool_at(alloc: Global, bytes: &[u8]) -> Result<(Pool, &[u8]), PoolRefusal>
    ensures value { Shows (λ x. (x.0, x.1.now)) result (pool_at bytes.now) }
    ensures start { (why : Refusal) → start_at bytes.now ≡ Err why → result ≡ Err why }
{
    let (count, rest) = count_at(bytes)?;
    let (slots, rest) = slots_at(alloc, count, rest)?;
    let pool = Pool::from_slots(slots);
    match first_unlinked(&pool) {
        Some(index) => Err(PoolRefusal::BadIndex { index }),
        None => Ok((pool, rest)),
    }
}

/// The pool at a place, and the place after it.
#[tactic(auto, unfolding(crate::specs::PoolReading::pool_from))]
fn pool_from(alloc: Global, bytes: &[u8], at: usize) -> Result<(Pool, usize), PoolRefusal>
    requires { at ≤ length bytes.now }
    ensures value { Gives result (pool_from bytes.now at) }
    ensures start { (why : Refusal) → start_at (drop at bytes.now) ≡ Err why → result ≡ Err why }
{
    let (pool, rest) = pool_at(alloc, &bytes[at..])?;
    Ok((pool, bytes.len() - rest.len()))
}

/// Reads the constant pool (JVMS 4.4) that begins at a place of the bytes, with its count. Answers
/// the pool and the place after it. A refusal is that of the first place that is wrong: entry by
/// entry what stands there, and then, entry by entry, what they name.
pub fn read_pool(alloc: Global, bytes: &[u8], at: usize) -> Result<(Pool, usize), PoolRefusal>
    requires { at ≤ length bytes.now }

    // What is read is a pool that is encoded there, and the place after it.
    ensures found { IfOk result (λ x. IsPoolAt bytes.now at x.0 x.1) }

    // A pool that is encoded there is read, unless memory runs out.
    ensures only { (pool : Slots) (suffix : ℕ) → IsPoolAt bytes.now at pool suffix → Gives result (Ok (pool, suffix)) }

    // Other bytes are refused for what is wrong first, unless memory runs out.
    ensures refused { IfErr result (λ why. (why ≡ Memory) ⊎ IsRefused (drop at bytes.now) why) }
    ensures refused_only { (why : Refusal) → IsRefused (drop at bytes.now) why → Gives result (Err why) }

    // What the count and the first entry are refused for is the refusal at once.
    ensures at_once { (why : Refusal) → IsRefusedAtOnce (drop at bytes.now) why → result ≡ Err why }

    // Which pool it is, or which refusal.
    ensures exact { Gives result (pool_from bytes.now at) }
{
    pool_from(alloc, bytes, at)
}
