//! Which methods may stand below which: how a class stands beside the methods of its superclasses.

ghost use Rattle.std.specs.Prelude.{◌≡◌, ◌≤◌, ◌<◌, ◌-◌, None, Some, length, OnOk, IfErr};
ghost use Rattle.class_tree.specs.Set.{IsClass};
ghost use Rattle.class_tree.specs.Members.{in_file};
ghost use Rattle.jvm_model.specs.Phases.{first_refusal};
ghost use Rattle.jvm_model.specs.Overrides.{overrides_badly as overrides_badly_of};
ghost use Rattle.jvm_model.specs.Linking.{override_refusal};
ghost use Rattle.body_make.specs.Refusals.{refusal_of};

use crate::methods::{is_special_name, text_at};
use crate::places::refusal_at;
use crate::refusal::{LinkCause, LinkRefusal};
use class_file::{ClassFile, Member};
use class_find::{is_bad_override, overridden};
use class_pool::{MemberId, Pool};
use class_tree::ClassSet;

/// The method at a position of a class stands below one below which it may not stand.
fn overrides_badly(set: &ClassSet, class: u16, member: u16, pool: &Pool, method: &Member) -> bool
    requires { IsClass set.now class }
    ensures { result ≡ overrides_badly_of set.now class member (in_file pool.now method.now) }
{
    let name = text_at(pool, method.name);
    if is_special_name(name) {
        return false;
    }
    match overridden(set, class, name, text_at(pool, method.descriptor)) {
        Some(upper) => is_bad_override(set, MemberId { class, member }, upper),
        None => false,
    }
}

/// Tests how each of these methods of a class stands below those above it.
pub(crate) fn test_overrides(
    set: &ClassSet,
    class: u16,
    file: &ClassFile,
    methods: &[Member],
) -> Result<(), LinkRefusal>
    requires own { 32 ≤ class }
    requires within { IsClass set.now class }
    requires counted { length methods.now ≤ 65535 }
    ensures passed { OnOk result (first_refusal (override_refusal set.now (class - 32) file.now) 0 methods.now ≡ None) }
    ensures refused { IfErr result (λ why. first_refusal (override_refusal set.now (class - 32) file.now) 0 methods.now ≡ Some (refusal_of why)) }
{
    for (member, method) in methods.iter().enumerate() {
        if overrides_badly(set, class, member as u16, &file.pool, method) {
            return Err(refusal_at(LinkCause::BadOverride, class, member, 0, 0));
        }
    }
    Ok(())
}
