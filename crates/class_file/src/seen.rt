//! The members of one kind that were read, by the texts of their names and descriptors.

ghost use Rattle.std.specs.Prelude.{◌≡◌, List, [], ◌∷◌, ◌++◌, Option, IsSome, IfOk, IfErr};
ghost use Rattle.class_pool.specs.declared.pool.Const.{Const};
ghost use Rattle.class_pool.specs.Pool.{utf8_at};
ghost use Rattle.class_file.specs.declared.record.Member.{Member as Earlier};
ghost use Rattle.class_file.specs.declared.refusal.ReadRefusal.TheVariants.{Memory};
ghost use Rattle.class_file.specs.ReadingMembers.{head_in, is_declared};
ghost use Rattle.class_file.specs.Texts.{AreTexts, signature_of, is_seen, AreSeen};

use crate::head::Head;
use crate::record::Member;
use crate::refusal::ReadRefusal;
use crate::texts::{Texts, same_at};
use class_pool::Pool;
use std::collections::BTreeSet;

/// The names and descriptors of the members that were read, each by the index that stands for its text.
pub(crate) type Seen = BTreeSet<(u16, u16)>;

/// What stands before the attributes of a member.
fn head_in(member: &Member) -> Head
    ensures { result ≡ head_in member.now }
{
    Head {
        flags: member.flags,
        name: member.name,
        descriptor: member.descriptor,
    }
}

/// The indexes that stand for the name and the descriptor.
fn signature_of(texts: &Texts, head: Head) -> (u16, u16)
    ensures { result ≡ signature_of texts.now head }
{
    (same_at(texts, head.name), same_at(texts, head.descriptor))
}

/// A member of this name and this descriptor was read.
fn is_seen(texts: &Texts, seen: &Seen, head: Head) -> bool
    ensures { result ≡ is_seen texts.now seen.now head }
{
    seen.contains(&signature_of(texts, head))
}

/// A member of the same name and descriptor stands among the earlier ones. What `pool` and `earlier`
/// say is known from `texts` and `seen`.
pub(crate) fn is_declared(
    pool: &Pool,
    texts: &Texts,
    earlier: &[Member],
    seen: &Seen,
    head: Head,
) -> bool
    requires seen { AreSeen pool.now texts.now earlier.now seen.now }
    requires name { IsSome (utf8_at pool.now head.name) }
    requires descriptor { IsSome (utf8_at pool.now head.descriptor) }
    ensures { result ≡ is_declared pool.now earlier.now head }
{
    is_seen(texts, seen, head)
}

/// Notes a member that was read.
pub(crate) fn note(texts: &Texts, seen: &mut Seen, member: &Member) -> Result<(), ReadRefusal>
    ensures seen { (pool : List (Option Const)) (earlier : List Earlier) → AreTexts pool texts.now → AreSeen pool texts.now earlier seen.old → IfOk result (λ done. AreSeen pool texts.now (earlier ++ member.now ∷ []) seen.new) }
    ensures memory { IfErr result (λ why. why ≡ Memory) }
{
    let signature = signature_of(texts, head_in(member));
    seen.insert(signature)?;
    Ok(())
}
