//! The slots of the locals that are references.

ghost use Rattle.std.specs.Prelude.{◌≡◌, ◌≤◌, map, length, IfOk};
ghost use Rattle.body_form.specs.declared.body.Body.{Body as MethodBody};
ghost use Rattle.insn_form.specs.declared.ValueKind.TheVariants as value_kind;
ghost use Rattle.jvm_model.specs.WidthsSlots.{is_stored, locals_of, slot_of, slot_count};
ghost use Rattle.flow_split.specs.Shares.{total_in, slot_share as slot_share_of, slot_shares_of};

use crate::marks::stored_marks;
use crate::parameters::is_reference_parameter;
use crate::shares::{Share, positions, total};
use body_form::Body;
use insn_form::ValueKind;
use std::alloc::{AllocError, Global};

/// What a local takes of the slots.
fn slot_share(body: &Body, local: u16, stored: bool) -> Share
    ensures { stored ≡ is_stored value_kind.Ref body.now local → result ≡ slot_share_of body.now local }
{
    let passed = is_reference_parameter(body, local);
    Share {
        passed: u8::from(passed),
        extended: 0,
        stored: u8::from(!passed && stored),
    }
}

/// What each local takes of the slots.
pub(crate) fn slot_shares(alloc: Global, body: &Body) -> Result<Vec<Share>, AllocError>
    ensures is { IfOk result (λ shares. shares.items ≡ slot_shares_of body.now) }
    ensures size { IfOk result (λ shares. length shares.items ≡ body.now.max_locals) }
{
    let marks = stored_marks(alloc, ValueKind::Ref, body)?;
    let marks = marks.as_slice();
    let mut shares = Vec::new(alloc);
    for local in 0..body.max_locals {
        let index = usize::from(local);
        match shares.push(slot_share(body, local, marks[index])) {
            Ok(()) => {}
            Err(why) => return Err(why.into()),
        }
    }
    Ok(shares)
}

/// The slot of each local that has one.
pub(crate) fn slots(alloc: Global, shares: &[Share]) -> Result<Vec<Option<u16>>, AllocError>
    requires few { length shares.now ≤ 65535 }
    requires small { total_in shares.now ≤ 32767 }
    ensures { IfOk result (λ slots. (body : MethodBody) → shares.now ≡ slot_shares_of body → slots.items ≡ map (slot_of body) (locals_of body)) }
{
    positions(alloc, shares)
}
