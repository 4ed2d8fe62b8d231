//! The method where a run begins.

ghost use Rattle.std.specs.Prelude.{◌≡◌, ◌≤◌, ℕ, None, Some, length, position, OnOk, IfErr};
ghost use Rattle.class_file.specs.declared.record.ClassFile.{ClassFile as File};
ghost use Rattle.jvm_model.specs.Entry.{is_main as is_main_of, main_in as main_in_file, entry_of, entry_refusal};
ghost use Rattle.body_make.specs.Refusals.{refusal_of};

use crate::methods::text_at;
use crate::refusal::{LinkCause, LinkRefusal};
use class_file::{ClassFile, Member, is_public, is_static};
use class_pool::{MemberId, Pool};
use class_tree::ClassSet;
use library::FIRST_OWN;

/// The name of the method where a run begins.
const MAIN: &[u8] = b"main";

/// Its descriptor.
const MAIN_TYPE: &[u8] = b"()V";

/// No file has a main; no place is named.
const NO_MAIN: LinkRefusal = LinkRefusal {
    cause: LinkCause::NoMain,
    file: 0,
    member: 0,
    pc: 0,
    value: 0,
};

/// The method is `public static main()V`.
fn is_main(pool: &Pool, method: &Member) -> bool
    ensures { result ≡ is_main_of pool.now method.now }
{
    MAIN == text_at(pool, method.name)
        && MAIN_TYPE == text_at(pool, method.descriptor)
        && is_public(method.flags)
        && is_static(method.flags)
}

/// The position of the first main among these methods.
fn main_among(pool: &Pool, methods: &[Member]) -> Option<usize>
    ensures { result ≡ position (is_main_of pool.now) methods.now }
{
    methods.iter().position(|method| is_main(pool, method))
}

/// The position of a file's main, where it has one.
fn main_in(file: &ClassFile) -> Option<usize>
    ensures { result ≡ main_in_file file.now }
{
    main_among(&file.pool, file.methods.as_slice())
}

/// The main of the first file that has one.
pub fn entry(set: &ClassSet) -> Option<MemberId>
    ensures { result ≡ entry_of set.now }
{
    for position in 0..set.file_count() {
        let class = FIRST_OWN + position;
        match main_in(set.file(class)) {
            Some(member) => {
                return Some(MemberId {
                    class,
                    member: member as u16,
                });
            }
            None => {}
        }
    }
    None
}

/// Tests that a file has a main.
pub(crate) fn test_entry(set: &ClassSet) -> Result<(), LinkRefusal>
    ensures passed { OnOk result (entry_refusal set.now ≡ None) }
    ensures refused { IfErr result (λ why. entry_refusal set.now ≡ Some (refusal_of why)) }
{
    match entry(set) {
        Some(_) => Ok(()),
        None => Err(NO_MAIN),
    }
}
