//! What instructions name: locals, statics, methods, selectors and types.

ghost use Rattle.std.specs.Prelude.{◌≡◌, ◌-◌, ◌<◌, ◌≤◌, length, slice_get, option_copied, IfErr, OnOk, MatchBool};
ghost use Rattle.std.specs.List.{AllByRecursion};
ghost use Rattle.image_form.specs.declared.record.Image.{Image};
ghost use Rattle.image_form.specs.Library.{signature as signature_is};
ghost use Rattle.image_check.specs.Code.{CodeIs};
ghost use Rattle.image_check.specs.Ids.{called_by as called_sig, kind_of as kind_for, names_concrete as names_concrete_of, names_array as names_array_of, has_dimensions as has_dimensions_of, HasLocal, HasStatic, TakesReceiver, HasIds};
ghost use Rattle.image_check.specs.Dimensions.{AreDimensions};
ghost use Rattle.image_check.specs.Refused.{IsFault};

use crate::dimensions::dimensions_in;
use crate::refusal::{CheckCause, Fault};
use image_form::{Image, Method, TypeEntry, names_interface, names_type, signature_in};
use image_instr::{Kind, MInsn, Sig, Width};
use library::{CLASS_COUNT, FIRST_OWN};

/// The signature of what is not called.
const NO_SIGNATURE: Sig = Sig {
    refs: 0,
    cells: 0,
    result: 0,
};

/// The signature of a selector, where it is there.
fn selector_in(image: &Image, selector: u16) -> Option<Sig>
    ensures { result ≡ slice_get image.now.selectors selector }
{
    image
        .selectors
        .as_slice()
        .get(usize::from(selector))
        .copied()
}

/// The signature of what an instruction calls, which counts for calls alone.
pub(crate) fn called_by(image: &Image, insn: MInsn) -> Sig
    ensures { result ≡ called_sig image.now insn }
{
    let called = match insn {
        MInsn::CallS { method } | MInsn::CallX { method } => {
            signature_in(image.methods.as_slice(), method)
        }
        MInsn::CallV { selector } | MInsn::CallI { selector, .. } => selector_in(image, selector),
        _ => None,
    };
    called.unwrap_or(NO_SIGNATURE)
}

/// Whether the local is there; one of two cells has its second cell too.
fn has_local(method: &Method, kind: Kind, local: u16) -> bool
    ensures { MatchBool result (HasLocal method.now kind local) (¬ HasLocal method.now kind local) }
{
    match kind {
        Kind::Ref => local < method.ref_locals,
        Kind::One => local < method.cell_locals,
        Kind::Two => u32::from(local) + 1 < u32::from(method.cell_locals),
    }
}

/// The kind of a number of this width.
fn kind_of(width: Width) -> Kind
    ensures { result ≡ kind_for width }
{
    match width {
        Width::One => Kind::One,
        Width::Two => Kind::Two,
    }
}

/// Whether the static is there; one of two cells has its second cell too.
fn has_static(image: &Image, kind: Kind, place: u16) -> bool
    ensures { MatchBool result (HasStatic image.now kind place) (¬ HasStatic image.now kind place) }
{
    let cells = image.static_cells.len();
    match kind {
        Kind::Ref => place < image.static_refs,
        Kind::One => usize::from(place) < cells,
        Kind::Two => usize::from(place) + 1 < cells,
    }
}

/// The entry of a type that is not the library's, where it is there.
fn entry_of(types: &[TypeEntry], id: u16) -> Option<&TypeEntry>
    requires { 32 ≤ id }
    ensures { option_copied result ≡ slice_get types.now (id - 32) }
{
    types.get(usize::from(id - FIRST_OWN))
}

/// Whether the id names a class of which there may be objects: neither an interface nor abstract.
fn names_concrete(types: &[TypeEntry], id: u16) -> bool
    ensures { result ≡ names_concrete_of types.now id }
{
    if id < FIRST_OWN {
        return id < CLASS_COUNT;
    }
    match entry_of(types, id) {
        Some(TypeEntry::Class(class)) => class.flags == 0,
        _ => false,
    }
}

/// Whether the id names an array type.
fn names_array(types: &[TypeEntry], id: u16) -> bool
    ensures { result ≡ names_array_of types.now id }
{
    if id < FIRST_OWN {
        return false;
    }
    matches!(
        entry_of(types, id),
        Some(TypeEntry::RefArray { .. } | TypeEntry::NumArray { .. })
    )
}

/// Whether the id names an array type of at least so many dimensions. The table tells it; the types that
/// it is made of are here for the contract alone.
fn has_dimensions(types: &[TypeEntry], table: &[u8], dimensions: u8, id: u16) -> bool
    requires { AreDimensions types.now table.now }
    ensures { result ≡ has_dimensions_of types.now dimensions id }
{
    let _ = types;
    dimensions <= dimensions_in(table, id)
}

/// Whether the selector is there.
fn has_selector(image: &Image, selector: u16) -> bool
    ensures { MatchBool result (selector < length image.now.selectors) (¬ (selector < length image.now.selectors)) }
{
    usize::from(selector) < image.selectors.len()
}

/// Whether a method is there that takes a reference, its receiver.
fn takes_receiver(called: Option<Sig>) -> bool
    ensures { MatchBool result (TakesReceiver called) (¬ TakesReceiver called) }
{
    match called {
        Some(sig) => 1 <= sig.refs,
        None => false,
    }
}

/// Whether what the instruction names is there.
fn has_ids(image: &Image, table: &[u8], method: &Method, insn: MInsn) -> bool
    requires { AreDimensions image.now.types table.now }
    ensures { MatchBool result (HasIds image.now method.now insn) (¬ HasIds image.now method.now insn) }
{
    let types = image.types.as_slice();
    let methods = image.methods.as_slice();
    match insn {
        MInsn::Load { kind, local } | MInsn::Store { kind, local } => {
            has_local(method, kind, local)
        }
        MInsn::RClear { local } => has_local(method, Kind::Ref, local),
        MInsn::Inc { width, local, .. } => has_local(method, kind_of(width), local),
        MInsn::GetS { kind, place } | MInsn::PutS { kind, place } => {
            has_static(image, kind, place)
        }
        MInsn::NewArr { id, .. } => names_array(types, id),
        MInsn::Multi { id, dims } => 1 <= dims && has_dimensions(types, table, dims, id),
        MInsn::New { id } => names_concrete(types, id),
        MInsn::Cast { id } | MInsn::Inst { id } => names_type(types, id),
        MInsn::CallS { method } => signature_in(methods, method).is_some(),
        MInsn::CallX { method } => takes_receiver(signature_in(methods, method)),
        MInsn::CallV { selector } => has_selector(image, selector),
        MInsn::CallI { selector, id } => has_selector(image, selector)
            && names_interface(types, id),
        _ => true,
    }
}

/// Tests that what each instruction names is there, by the table of the dimensions of the types.
pub(crate) fn test_ids(
    image: &Image,
    table: &[u8],
    method: &Method,
    insns: &[(u16, MInsn)],
) -> Result<(), Fault>
    requires code { CodeIs method.now.code insns.now }
    requires table { AreDimensions image.now.types table.now }
    ensures kept { OnOk result (AllByRecursion (λ x. HasIds image.now method.now x.1) insns.now) }
    ensures refused { IfErr result (λ fault. IsFault image.now method.now fault.cause fault.pc) }
{
    for x in insns {
        if !has_ids(image, table, method, x.1) {
            return Err(Fault {
                cause: CheckCause::BadId,
                pc: x.0,
            });
        }
    }
    Ok(())
}
