//! What rows of exception tables catch (JVMS 4.7.3).

ghost use Rattle.std.specs.Prelude.{◌≡◌};
ghost use Rattle.class_tree.specs.Set.{IsClass};
ghost use Rattle.jvm_model.specs.Instructions.{class_in as class_in_base, caught_by as caught_by_entry};
ghost use Rattle.body_make.specs.Answers.{Tells};

use crate::fault::Fault;
use crate::type_test::TypeTest;
use crate::types::type_used;
use class_pool::{Pool, TypeBase};
use class_tree::ClassSet;
use std::alloc::Global;

/// The class of a type that is one.
fn class_in(base: TypeBase) -> Option<u16>
    ensures { result ≡ class_in_base base }
{
    match base {
        TypeBase::Class(class) => Some(class),
        _ => None,
    }
}

/// What a row catches: the class that the entry at an index names, or anything where the index is 0.
pub(crate) fn caught_by(
    alloc: Global,
    set: &ClassSet,
    from: u16,
    pool: &Pool,
    index: u16,
) -> Result<Option<u16>, Fault>
    requires { IsClass set.now from }
    ensures { Tells result (caught_by_entry set.now from pool.now index) }
{
    if index == 0 {
        return Ok(None);
    }
    let caught = type_used(alloc, set, from, pool, TypeTest::Caught, index)?;
    Ok(class_in(caught.base))
}
