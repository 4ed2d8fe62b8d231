//! The signature of a method.

ghost use Rattle.std.specs.Prelude.{◌≡◌, ◌+◌, ◌*◌, ◌≤◌, if◌then◌else◌, length, filter};
ghost use Rattle.std.specs.List.{sum_by};
ghost use Rattle.jvm_model.specs.Initialisers.{is_reference_kind as is_reference_of};
ghost use Rattle.jvm_model.specs.WidthsSlots.{passed_cells as cells_passed};
ghost use Rattle.jvm_model.specs.WidthsFrame.{result_code as code_of_result, signature_for};
ghost use Rattle.infuse_emit.specs.Parts.{HasFewParameters};

use body_form::Body;
use class_pool::Kind;
use expansion::{kind_in, passed_cells};
use image_instr::{Kind as Shape, Sig};

/// Whether a value of a type is a reference.
fn is_reference(kind: &Kind) -> bool
    ensures { result ≡ is_reference_of kind.now }
{
    matches!(kind, Kind::Class(_) | Kind::Array { .. })
}

/// How many of these types are references.
fn references(kinds: &[Kind]) -> usize
    ensures is { result ≡ length (filter is_reference_of kinds.now) }
    ensures most { result ≤ length kinds.now }
{
    let mut count = 0;
    for kind in kinds {
        if is_reference(kind) {
            count += 1;
        }
    }
    count
}

/// How many cells values of these types are passed in, references in none.
fn cells(kinds: &[Kind]) -> u16
    requires { length kinds.now ≤ 255 }
    ensures { result ≡ sum_by cells_passed kinds.now }
{
    let mut cells = 0;
    for kind in kinds {
        cells += passed_cells(kind);
    }
    cells
}

/// The code of a result: 0 for none, 1 for a reference, 2 for one cell, 3 for two.
fn result_code(returned: &Option<Kind>) -> u8
    ensures { result ≡ code_of_result returned.now }
{
    match returned {
        Some(kind) => match kind_in(kind) {
            Shape::Ref => 1,
            Shape::One => 2,
            Shape::Two => 3,
        },
        None => 0,
    }
}

/// What a method takes and gives: the object that it is called on, where it has one, and its parameters.
pub fn signature(instance: bool, params: &[Kind], returned: &Option<Kind>) -> Sig
    requires { (if instance then 1 else 0) + length params.now ≤ 255 }
    ensures { result ≡ signature_for instance params.now returned.now }
{
    let object = if instance { 1 } else { 0 };
    Sig {
        refs: object + references(params) as u8,
        cells: cells(params),
        result: result_code(returned),
    }
}

/// What the method of a body takes and gives.
pub(crate) fn signature_of(body: &Body) -> Sig
    requires { HasFewParameters body.now }
    ensures { result ≡ signature_for body.now.instance body.now.params body.now.result }
{
    signature(body.instance, body.params.as_slice(), &body.result)
}
