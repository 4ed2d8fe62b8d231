//! Rules of calls of methods (JVMS 6.5, invokevirtual to invokeinterface), without those of constructors.

ghost use Rattle.std.specs.Prelude.{◌≡◌, ◌≤◌, ◌++◌, [], ◌∷◌, map, reverse, option_map, IfOk, IfSome};
ghost use Rattle.std.specs.Option.{option_to_list};
ghost use Rattle.jvm_model.specs.TypesFrames.{IsKnownFrame, fits_kind};
ghost use Rattle.jvm_model.specs.TypesRules.{call as call_change, argument_tests};
ghost use Rattle.type_table.specs.Changes.{meant};
ghost use Rattle.type_table.specs.Frames.{IsFrame, frame_of};
ghost use Rattle.flow_verify.specs.Needs.{tests_of};

use crate::kinds::{declared_need, value_of_kind};
use crate::need::Need;
use crate::operands::{plain, plain_of};
use body_form::MethodUse;
use class_pool::Kind;
use class_tree::ClassSet;
use std::alloc::Global;
use type_table::{Change, FrameId, Memory, Store};

/// What the arguments have to be, the last one first.
fn needs_of(alloc: Global, set: &ClassSet, params: &[Kind]) -> Result<Vec<Need>, Memory>
    ensures { IfOk result (λ v. tests_of set.now v.items ≡ reverse (map (fits_kind set.now) params.now)) }
{
    let mut needs = Vec::new(alloc);
    let mut left = params.len();
    while left > 0 {
        left -= 1;
        match needs.push(declared_need(set, &params[left])) {
            Ok(()) => {}
            Err(why) => return Err(why.into()),
        }
    }
    Ok(needs)
}

/// What the arguments of a call have to be, the last one first, and then its receiver, if it has one.
pub(crate) fn argument_needs(
    alloc: Global,
    set: &ClassSet,
    used: &MethodUse,
    receiver: Option<Need>,
) -> Result<Vec<Need>, Memory>
    ensures { IfOk result (λ v. tests_of set.now v.items ≡ argument_tests set.now used.now ++ tests_of set.now (option_to_list receiver)) }
{
    let mut needs = needs_of(alloc, set, used.descriptor.params.as_slice())?;
    if let Some(need) = receiver {
        needs.push(need)?;
    }
    Ok(needs)
}

/// A call whose receiver, if it has one, is what it has to be.
pub(crate) fn call(
    alloc: Global,
    set: &ClassSet,
    store: &Store,
    frame: FrameId,
    used: &MethodUse,
    receiver: Option<Need>,
) -> Result<Option<Change>, Memory>
    requires there { IsFrame store.now frame }
    requires known { IsKnownFrame set.now (frame_of store.now frame) }
    ensures change { IfOk result (λ o. option_map meant o ≡ call_change set.now (frame_of store.now frame) used.now (tests_of set.now (option_to_list receiver))) }
    ensures pops { IfOk result (λ o. IfSome o (λ change. change.pops ≤ frame.height)) }
{
    let needs = argument_needs(alloc, set, used, receiver)?;
    match &used.descriptor.result {
        Some(kind) => Ok(plain_of(set, store, frame, &needs, value_of_kind(set, kind))),
        None => Ok(plain(set, store, frame, &needs, &[])),
    }
}
