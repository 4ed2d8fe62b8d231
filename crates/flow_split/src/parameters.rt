//! Which locals are parameters.

ghost use Rattle.std.specs.Prelude.{◌≡◌, ◌≤◌, option_copied};
ghost use Rattle.std.specs.Option.{option_map_or};
ghost use Rattle.jvm_model.specs.WidthsSlots.{parameter_at, is_parameter, is_small as is_small_of, is_char, passed_cells as passed_cells_of, is_reference_parameter as is_reference_parameter_of};
ghost use Rattle.jvm_model.specs.Initialisers.{is_reference_kind as is_reference_kind_of, is_whole_kind as is_whole_kind_of};
ghost use Rattle.image_instr.specs.Effect.{cells_in};

use crate::calls::passed_cells;
use crate::kinds::is_small;
use body_form::Body;
use class_pool::Kind;

/// The type of the parameter that a local is.
fn parameter(body: &Body, local: u16) -> Option<&Kind>
    ensures { option_copied result ≡ parameter_at body.now local }
{
    let first = u16::from(body.instance);
    if local < first {
        None
    } else {
        body.params.as_slice().get(usize::from(local - first))
    }
}

/// In how many cells a local is passed, none where it is no parameter.
pub(crate) fn parameter_cells(body: &Body, local: u16) -> u8
    ensures is { result ≡ option_map_or passed_cells_of (parameter_at body.now local) 0 }
    ensures small { result ≤ 2 }
{
    match parameter(body, local) {
        Some(kind) => passed_cells(kind) as u8,
        None => 0,
    }
}

/// A class or an array.
fn is_reference_kind(kind: &Kind) -> bool
    ensures { result ≡ is_reference_kind_of kind.now }
{
    matches!(kind, Kind::Class(_) | Kind::Array { .. })
}

/// A parameter that is a reference, or the object that the method is called on.
pub(crate) fn is_reference_parameter(body: &Body, local: u16) -> bool
    ensures { result ≡ is_reference_parameter_of body.now local }
{
    if local < u16::from(body.instance) {
        return true;
    }
    match parameter(body, local) {
        Some(kind) => is_reference_kind(kind),
        None => false,
    }
}

/// A parameter of type char.
pub(crate) fn is_char_parameter(body: &Body, local: u16) -> bool
    ensures { result ≡ is_parameter is_char body.now local }
{
    match parameter(body, local) {
        Some(kind) => matches!(kind, Kind::Char),
        None => false,
    }
}

/// An int or a number of a small type.
fn is_whole_kind(kind: &Kind) -> bool
    ensures { result ≡ is_whole_kind_of kind.now }
{
    passed_cells(kind) > 0
}

/// A parameter that is a whole number.
pub(crate) fn is_whole_parameter(body: &Body, local: u16) -> bool
    ensures { result ≡ is_parameter is_whole_kind_of body.now local }
{
    match parameter(body, local) {
        Some(kind) => is_whole_kind(kind),
        None => false,
    }
}

/// A parameter of a small type.
pub(crate) fn is_small_parameter(body: &Body, local: u16) -> bool
    ensures { result ≡ is_parameter is_small_of body.now local }
{
    match parameter(body, local) {
        Some(kind) => is_small(kind),
        None => false,
    }
}
