//! What the declared descriptors of fields and methods name: a class that the set lacks, or a type of long,
//! float or double. Each text of a pool is parsed once, however many members name it.

ghost use Rattle.std.specs.Prelude.{◌≡◌, ◌⊎◌, ℕ, ◌<◌, ◌≤◌, ◌+◌, None, Some, length, slice_get, [], ◌∷◌, option_and_then, IfOk, IfErr, OnOk};
ghost use Rattle.std.specs.List.{list_any};
ghost use Rattle.class_pool.specs.Descriptors.{base_of as base_of_kind};
ghost use Rattle.class_pool.specs.Pool.{utf8_at};
ghost use Rattle.class_pool.specs.DescriptorReading.{field_of, method_of};
ghost use Rattle.class_tree.specs.declared.refusal.TreeRefusal.TheVariants.{Memory};
ghost use Rattle.class_tree.specs.Scan.{first_refusal, saturated as saturated_of};
ghost use Rattle.class_tree.specs.Descriptors.{lacks_base as lacks_base_of, is_wide_base as is_wide_base_of, kinds_fault as kinds_fault_of, kinds_of, fault_at as fault_at_index, field_fault as field_fault_of, method_fault as method_fault_of, fault_refusal as fault_refusal_of, member_refusal, file_refusal, declared_refusal};

use crate::names::Names;
use crate::refusal::TreeRefusal;
use class_file::{ClassFile, Member};
use class_pool::{
    Base, Descriptor, DescriptorRefusal, Kind, Pool, read_descriptor, read_field_descriptor,
};
use std::alloc::Global;

/// What is wrong with a descriptor.
#[derive(Clone, Copy, Debug, PartialEq, Eq)]
pub(crate) enum Fault {
    /// It names a class that the set lacks.
    Missing,
    /// It has a type of long, float or double.
    Wide,
}

/// The type is a class, or an array of one, that the set lacks.
fn lacks_kind(names: &Names, kind: &Kind) -> bool
    requires { length names.now ≤ 512 }
    ensures { result ≡ lacks_base_of names.now (base_of_kind kind.now) }
{
    match kind {
        Kind::Class(name)
        | Kind::Array {
            of: Base::Class(name),
            ..
        } => names.number_of(name.as_slice()).is_none(),
        _ => false,
    }
}

/// The type is long, float or double, or an array of one.
fn is_wide_kind(kind: &Kind) -> bool
    ensures { result ≡ is_wide_base_of (base_of_kind kind.now) }
{
    match kind {
        Kind::Long | Kind::Float | Kind::Double => true,
        Kind::Array { of, .. } => matches!(of, Base::Long | Base::Float | Base::Double),
        _ => false,
    }
}

/// One of the types names a class that the set lacks.
fn lacks_one(names: &Names, kinds: &[Kind]) -> bool
    requires { length names.now ≤ 512 }
    ensures { result ≡ list_any (λ kind. lacks_base_of names.now (base_of_kind kind)) kinds.now }
{
    kinds.iter().any(|kind| lacks_kind(names, kind))
}

/// One of the types is wide.
fn has_wide(kinds: &[Kind]) -> bool
    ensures { result ≡ list_any (λ kind. is_wide_base_of (base_of_kind kind)) kinds.now }
{
    kinds.iter().any(is_wide_kind)
}

/// What is wrong with the type of a field.
fn kind_fault(names: &Names, kind: &Kind) -> Option<Fault>
    requires { length names.now ≤ 512 }
    ensures { result ≡ kinds_fault_of names.now (kind.now ∷ []) }
{
    if lacks_kind(names, kind) {
        Some(Fault::Missing)
    } else if is_wide_kind(kind) {
        Some(Fault::Wide)
    } else {
        None
    }
}

/// What is wrong with the types of a method.
fn type_fault(names: &Names, descriptor: &Descriptor) -> Option<Fault>
    requires { length names.now ≤ 512 }
    ensures { result ≡ kinds_fault_of names.now (kinds_of descriptor.now) }
{
    let params = descriptor.params.as_slice();
    let lacks = match &descriptor.result {
        Some(kind) => lacks_one(names, params) || lacks_kind(names, kind),
        None => lacks_one(names, params),
    };
    let wide = match &descriptor.result {
        Some(kind) => has_wide(params) || is_wide_kind(kind),
        None => has_wide(params),
    };
    if lacks {
        Some(Fault::Missing)
    } else if wide {
        Some(Fault::Wide)
    } else {
        None
    }
}

/// What is wrong with a text as a field's descriptor.
fn field_text_fault(alloc: Global, names: &Names, text: &[u8]) -> Result<Option<Fault>, TreeRefusal>
    requires { length names.now ≤ 512 }
    ensures found { IfOk result (λ fault. fault ≡ option_and_then (λ kind. kinds_fault_of names.now (kind ∷ [])) (field_of text.now)) }
    ensures memory { IfErr result (λ why. why ≡ Memory) }
{
    match read_field_descriptor(alloc, text) {
        Ok(kind) => Ok(kind_fault(names, &kind)),
        Err(DescriptorRefusal::BadDescriptor) => Ok(None),
        Err(DescriptorRefusal::Memory) => Err(TreeRefusal::Memory),
    }
}

/// What is wrong with a text as a method's descriptor.
fn method_text_fault(
    alloc: Global,
    names: &Names,
    text: &[u8],
) -> Result<Option<Fault>, TreeRefusal>
    requires { length names.now ≤ 512 }
    ensures found { IfOk result (λ fault. fault ≡ option_and_then (λ type. kinds_fault_of names.now (kinds_of type)) (method_of text.now)) }
    ensures memory { IfErr result (λ why. why ≡ Memory) }
{
    match read_descriptor(alloc, text) {
        Ok(descriptor) => Ok(type_fault(names, &descriptor)),
        Err(DescriptorRefusal::BadDescriptor) => Ok(None),
        Err(DescriptorRefusal::Memory) => Err(TreeRefusal::Memory),
    }
}

/// The number in the four bytes of its field, or the greatest one.
pub(crate) fn saturated(number: usize) -> u32
    ensures { result ≡ saturated_of number }
{
    u32::try_from(number).unwrap_or(u32::MAX)
}

/// What is wrong with the text at an index as a field's descriptor.
fn field_fault(
    alloc: Global,
    names: &Names,
    pool: &Pool,
    index: u16,
) -> Result<Option<Fault>, TreeRefusal>
    requires { length names.now ≤ 512 }
    ensures found { IfOk result (λ fault. fault ≡ field_fault_of names.now pool.now index) }
    ensures memory { IfErr result (λ why. why ≡ Memory) }
{
    match pool.utf8(index) {
        Some(text) => field_text_fault(alloc, names, text),
        None => Ok(None),
    }
}

/// What is wrong with the text at an index as a method's descriptor.
fn method_fault(
    alloc: Global,
    names: &Names,
    pool: &Pool,
    index: u16,
) -> Result<Option<Fault>, TreeRefusal>
    requires { length names.now ≤ 512 }
    ensures found { IfOk result (λ fault. fault ≡ method_fault_of names.now pool.now index) }
    ensures memory { IfErr result (λ why. why ≡ Memory) }
{
    match pool.utf8(index) {
        Some(text) => method_text_fault(alloc, names, text),
        None => Ok(None),
    }
}

/// What is wrong with each text of a pool as a field's descriptor, by its index.
fn field_faults(
    alloc: Global,
    names: &Names,
    pool: &Pool,
) -> Result<Vec<Option<Fault>>, TreeRefusal>
    requires { length names.now ≤ 512 }
    ensures found { IfOk result (λ faults. (index : ℕ) → fault_at_index faults.items index ≡ field_fault_of names.now pool.now index) }
    ensures memory { IfErr result (λ why. why ≡ Memory) }
{
    let mut faults = Vec::new(alloc);
    for index in 0..pool.count() {
        let fault = field_fault(alloc, names, pool, index)?;
        faults.push(fault)?;
    }
    Ok(faults)
}

/// What is wrong with each text of a pool as a method's descriptor, by its index.
fn method_faults(
    alloc: Global,
    names: &Names,
    pool: &Pool,
) -> Result<Vec<Option<Fault>>, TreeRefusal>
    requires { length names.now ≤ 512 }
    ensures found { IfOk result (λ faults. (index : ℕ) → fault_at_index faults.items index ≡ method_fault_of names.now pool.now index) }
    ensures memory { IfErr result (λ why. why ≡ Memory) }
{
    let mut faults = Vec::new(alloc);
    for index in 0..pool.count() {
        let fault = method_fault(alloc, names, pool, index)?;
        faults.push(fault)?;
    }
    Ok(faults)
}

/// The refusal of a member for what is wrong with its descriptor.
fn fault_refusal(file: u32, value: u32, member: u32, fault: Fault) -> TreeRefusal
    ensures { result ≡ fault_refusal_of file value member fault }
{
    match fault {
        Fault::Missing => TreeRefusal::MissingClass {
            file,
            member,
            value,
        },
        Fault::Wide => TreeRefusal::WideType {
            file,
            member,
            value,
        },
    }
}

/// What is wrong with the text at an index.
fn fault_at(faults: &[Option<Fault>], index: u16) -> Option<Fault>
    ensures { result ≡ fault_at_index faults.now index }
{
    match faults.get(usize::from(index)) {
        Some(fault) => *fault,
        None => None,
    }
}

/// What the first member is refused for, by what is wrong with the texts of the pool.
fn first_member(
    faults: &[Option<Fault>],
    file: u32,
    value: u32,
    members: &[Member],
) -> Option<TreeRefusal>
    ensures { result ≡ first_refusal (member_refusal (fault_at_index faults.now) file value) 0 members.now }
{
    for (position, member) in members.iter().enumerate() {
        match fault_at(faults, member.descriptor) {
            Some(fault) => return Some(fault_refusal(file, value, saturated(position), fault)),
            None => {}
        }
    }
    None
}

/// What a file is refused for by the descriptors of its fields and methods.
fn file_fault(
    alloc: Global,
    names: &Names,
    position: u32,
    file: &ClassFile,
) -> Result<Option<TreeRefusal>, TreeRefusal>
    requires { length names.now ≤ 512 }
    ensures found { IfOk result (λ fault. fault ≡ file_refusal names.now position file.now) }
    ensures memory { IfErr result (λ why. why ≡ Memory) }
{
    let of_fields = field_faults(alloc, names, &file.pool)?;
    let of_methods = method_faults(alloc, names, &file.pool)?;
    let fault = match first_member(of_fields.as_slice(), position, 1, file.fields.as_slice()) {
        Some(why) => Some(why),
        None => first_member(of_methods.as_slice(), position, 2, file.methods.as_slice()),
    };
    Ok(fault)
}

/// Tests the declared descriptors of each file.
pub(crate) fn test_descriptors(
    alloc: Global,
    names: &Names,
    files: &[ClassFile],
) -> Result<(), TreeRefusal>
    requires names { length names.now ≤ 512 }
    requires files { length files.now ≤ 512 }
    ensures passed { OnOk result (declared_refusal names.now files.now ≡ None) }
    ensures refused { IfErr result (λ why. (why ≡ Memory) ⊎ (declared_refusal names.now files.now ≡ Some why)) }
{
    for (position, file) in files.iter().enumerate() {
        match file_fault(alloc, names, position as u32, file) {
            Ok(None) => {}
            Ok(Some(why)) => return Err(why),
            Err(why) => return Err(why),
        }
    }
    Ok(())
}
