//! What the texts of a constant pool are, found once: which of them are the same, and what each is as
//! a descriptor (JVMS 4.3). So however many members name a text, it is compared and parsed once.

ghost use Rattle.std.specs.Prelude.{◌≡◌, false, None, Ok, IfOk, IfErr, min, sum_by, is_some, unwrap_or, option_map};
ghost use Rattle.class_pool.specs.DescriptorReading.{field_of, method_of};
ghost use Rattle.class_file.specs.declared.refusal.ReadRefusal.TheVariants.{Memory};
ghost use Rattle.class_file.specs.Rules.{slots_of};
ghost use Rattle.class_file.specs.Reading.{Gives};
ghost use Rattle.class_file.specs.Texts.{unless_memory, shape_of, same_at, is_field_at, shape_at, AreTexts, number_in, AreNumbered, text_row, row_at};

use crate::refusal::ReadRefusal;
use class_pool::{
    Descriptor, DescriptorRefusal, Kind, Pool, read_descriptor, read_field_descriptor,
};
use item_list::Items;
use std::alloc::Global;
use std::collections::BTreeMap;

/// A method's descriptor, as far as the rules of a method ask for it.
#[derive(Clone, Copy, Debug)]
pub(crate) struct MethodShape {
    /// How many argument places the parameters take, up to 256, which stands for more too.
    pub(crate) slots: u16,
    pub(crate) has_result: bool,
}

/// What is at an index of the pool.
#[derive(Clone, Copy, Debug)]
pub(crate) struct TextRow {
    /// The index that stands for the text, wherever it is; 0 where no text is.
    same: u16,
    /// The text is a field's descriptor.
    is_field: bool,
    /// What the text is as a method's descriptor.
    method: Option<MethodShape>,
}

/// A row for each index of the pool, from 0 on.
pub(crate) type Texts = Items<TextRow>;

/// How many argument places a parameter takes (JVMS 4.3.3).
fn slots_of(kind: &Kind) -> u8
    ensures { result ≡ slots_of kind.now }
{
    match kind {
        Kind::Long | Kind::Double => 2,
        _ => 1,
    }
}

/// How many argument places the parameters take, up to 256.
fn slots_in(kinds: &[Kind]) -> u16
    ensures { result ≡ min 256 (sum_by slots_of kinds.now) }
{
    let mut slots = 0;
    for kind in kinds {
        slots = (slots + u16::from(slots_of(kind))).min(256);
    }
    slots
}

/// What the rules of a method ask of its descriptor.
fn shape_of(descriptor: &Descriptor) -> MethodShape
    ensures { result ≡ shape_of descriptor.now }
{
    MethodShape {
        slots: slots_in(descriptor.params.as_slice()),
        has_result: descriptor.result.is_some(),
    }
}

/// What is answered for a text that was not read: that it is no descriptor, unless memory ran out.
fn unless_memory<T: Copy>(none: T, why: DescriptorRefusal) -> Result<T, ReadRefusal>
    ensures { result ≡ unless_memory none why }
{
    match why {
        DescriptorRefusal::BadDescriptor => Ok(none),
        DescriptorRefusal::Memory => Err(ReadRefusal::Memory),
    }
}

/// The text is a field's descriptor.
fn is_field(alloc: Global, text: &[u8]) -> Result<bool, ReadRefusal>
    ensures value { Gives (λ x. x) result (Ok (is_some (field_of text.now))) }
    ensures none { field_of text.now ≡ None → result ≡ Ok false }
{
    match read_field_descriptor(alloc, text) {
        Ok(_) => Ok(true),
        Err(why) => unless_memory(false, why),
    }
}

/// What the text is as a method's descriptor.
fn method_shape(alloc: Global, text: &[u8]) -> Result<Option<MethodShape>, ReadRefusal>
    ensures value { Gives (λ x. x) result (Ok (option_map shape_of (method_of text.now))) }
    ensures none { method_of text.now ≡ None → result ≡ Ok None }
{
    match read_descriptor(alloc, text) {
        Ok(descriptor) => Ok(Some(shape_of(&descriptor))),
        Err(why) => unless_memory(None, why),
    }
}

/// The index that the map has for a text, or 0.
fn number_of(numbers: &BTreeMap<&[u8], u16>, text: &[u8]) -> u16
    ensures { result ≡ unwrap_or (number_in numbers.now text.now) 0 }
{
    match numbers.get(text) {
        Some(index) => *index,
        None => 0,
    }
}

/// The row of a text.
fn text_row(
    alloc: Global,
    numbers: &BTreeMap<&[u8], u16>,
    text: &[u8],
) -> Result<TextRow, ReadRefusal>
    ensures { Gives (λ row. row) result (Ok (text_row (number_in numbers.now) text.now)) }
{
    let is_field = is_field(alloc, text)?;
    let method = method_shape(alloc, text)?;
    Ok(TextRow {
        same: number_of(numbers, text),
        is_field,
        method,
    })
}

/// The row of an index.
fn row_at(
    alloc: Global,
    pool: &Pool,
    numbers: &BTreeMap<&[u8], u16>,
    index: u16,
) -> Result<TextRow, ReadRefusal>
    ensures { Gives (λ row. row) result (Ok (row_at pool.now (number_in numbers.now) index)) }
{
    match pool.utf8(index) {
        Some(text) => text_row(alloc, numbers, text),
        None => Ok(TextRow {
            same: 0,
            is_field: false,
            method: None,
        }),
    }
}

/// An index for each text of the pool, where it stands.
fn numbers_of(alloc: Global, pool: &Pool) -> Result<BTreeMap<&[u8], u16>, ReadRefusal>
    ensures found { IfOk result (λ numbers. AreNumbered pool.now (number_in numbers)) }
    ensures memory { IfErr result (λ why. why ≡ Memory) }
{
    let mut numbers = BTreeMap::new(alloc);
    for index in 0..pool.count() {
        if let Some(text) = pool.utf8(index) {
            numbers.insert(text, index)?;
        }
    }
    Ok(numbers)
}

/// The rows of all indexes.
fn rows_of(
    alloc: Global,
    pool: &Pool,
    numbers: &BTreeMap<&[u8], u16>,
) -> Result<Vec<TextRow>, ReadRefusal>
    requires { AreNumbered pool.now (number_in numbers.now) }
    ensures found { IfOk result (λ rows. AreTexts pool.now rows.items) }
    ensures memory { IfErr result (λ why. why ≡ Memory) }
{
    let mut rows = Vec::new(alloc);
    for index in 0..pool.count() {
        let row = row_at(alloc, pool, numbers, index)?;
        rows.push(row)?;
    }
    Ok(rows)
}

/// The table of the texts of a pool. The one refusal is want of memory.
pub(crate) fn texts_of(alloc: Global, pool: &Pool) -> Result<Texts, ReadRefusal>
    ensures found { IfOk result (λ texts. AreTexts pool.now texts) }
    ensures memory { IfErr result (λ why. why ≡ Memory) }
{
    let numbers = numbers_of(alloc, pool)?;
    let rows = rows_of(alloc, pool, &numbers)?;
    Ok(Items::from_vec(rows))
}

/// The index that stands for the text at an index, or 0 where no text is.
pub(crate) fn same_at(texts: &Texts, index: u16) -> u16
    ensures { result ≡ same_at texts.now index }
{
    match texts.as_slice().get(usize::from(index)) {
        Some(row) => row.same,
        None => 0,
    }
}

/// The text at an index is a field's descriptor.
pub(crate) fn is_field_at(texts: &Texts, index: u16) -> bool
    ensures { result ≡ is_field_at texts.now index }
{
    match texts.as_slice().get(usize::from(index)) {
        Some(row) => row.is_field,
        None => false,
    }
}

/// What the text at an index is as a method's descriptor.
pub(crate) fn shape_at(texts: &Texts, index: u16) -> Option<MethodShape>
    ensures { result ≡ shape_at texts.now index }
{
    texts.as_slice().get(usize::from(index))?.method
}
