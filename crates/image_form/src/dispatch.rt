//! The selector and the method of a dispatch row have one signature.

ghost use Rattle.std.specs.Prelude.{◌≡◌, ◌^◌, ◌<◌, length};
ghost use Rattle.std.specs.List.{list_all};
ghost use Rattle.image_form.specs.Reading.{is_one_signature, is_matched, is_entry_matched, first_unmatched};

use crate::ids::signature_in;
use crate::record::{DispatchRow, Method, TypeEntry};
use image_instr::Sig;

/// Both are there and are one signature.
fn is_one_signature(first: Option<Sig>, second: Option<Sig>) -> bool
    ensures { result ≡ is_one_signature first second }
{
    match (first, second) {
        (Some(first), Some(second)) => {
            first.refs == second.refs
                && (first.cells == second.cells && first.result == second.result)
        }
        _ => false,
    }
}

/// The row's selector and its method have one signature.
fn is_matched(selectors: &[Sig], methods: &[Method], row: DispatchRow) -> bool
    ensures { result ≡ is_matched selectors.now methods.now row }
{
    let selector = selectors.get(usize::from(row.selector)).copied();
    is_one_signature(selector, signature_in(methods, row.method))
}

/// Each of the rows is matched.
fn are_matched(selectors: &[Sig], methods: &[Method], rows: &[DispatchRow]) -> bool
    ensures { result ≡ list_all (is_matched selectors.now methods.now) rows.now }
{
    rows.iter().all(|row| is_matched(selectors, methods, *row))
}

/// Each row of the entry is matched.
fn is_entry_matched(selectors: &[Sig], methods: &[Method], entry: &TypeEntry) -> bool
    ensures { result ≡ is_entry_matched selectors.now methods.now entry.now }
{
    match entry {
        TypeEntry::Class(class) => are_matched(selectors, methods, class.rows.as_slice()),
        TypeEntry::RefArray { .. } => true,
        TypeEntry::NumArray { .. } => true,
    }
}

/// The index of the first type with a row that is not matched.
pub(crate) fn first_unmatched(
    selectors: &[Sig],
    methods: &[Method],
    types: &[TypeEntry],
) -> Option<u16>
    requires { length types.now < 2 ^ 16 }
    ensures { result ≡ first_unmatched selectors.now methods.now 0 types.now }
{
    let mut index = 0;
    for entry in types {
        if !is_entry_matched(selectors, methods, entry) {
            return Some(index);
        }
        index += 1;
    }
    None
}
