//! What the instructions of an initialiser push and name.

ghost use Rattle.std.specs.Prelude.{◌≡◌, option_map};
ghost use Rattle.jvm_model.specs.Initialisers.{pushed_by as pushed_by_insn, is_plain_return as is_plain_return_insn};
ghost use Rattle.jvm_model.specs.Resolution.{member_named as member_named_of, field_name_at};
ghost use Rattle.infuse_ids.specs.Writes.{pushed_of, named_of, target_of};

use class_code::Insn;
use class_pool::{Const, MemberName, Pool, name_and_type_in};

/// What an initialiser has pushed.
#[derive(Clone, Copy, Debug, PartialEq, Eq)]
pub(crate) enum Pushed {
    Number(i32),
    Null,
}

/// What an instruction pushes, where it is a push of a constant.
pub(crate) fn pushed_by(pool: &Pool, insn: &Insn) -> Option<Pushed>
    ensures { option_map pushed_of result ≡ pushed_by_insn pool.now insn.now }
{
    match insn {
        Insn::Push(number) => Some(Pushed::Number(*number)),
        Insn::Ldc(index) => Some(Pushed::Number(pool.integer(*index)?)),
        Insn::Null => Some(Pushed::Null),
        _ => None,
    }
}

/// The instruction is the return of a method without a result.
pub(crate) fn is_plain_return(insn: &Insn) -> bool
    ensures { result ≡ is_plain_return_insn insn.now }
{
    matches!(insn, Insn::Return(None))
}

/// What the two parts of a reference to a member name.
fn member_named(pool: &Pool, class: u16, name_and_type: u16) -> Option<MemberName<'_>>
    ensures { option_map named_of result ≡ member_named_of pool.now class name_and_type }
{
    let class = pool.class_name(class)?;
    let (name, descriptor) = name_and_type_in(pool, name_and_type)?;
    Some(MemberName {
        class,
        name,
        descriptor,
    })
}

/// The member that the entry at an index names, where it is a field.
fn field_name(pool: &Pool, index: u16) -> Option<MemberName<'_>>
    ensures { option_map named_of result ≡ field_name_at pool.now index }
{
    match pool.get(index)? {
        Const::Field(class, name_and_type) => member_named(pool, *class, *name_and_type),
        _ => None,
    }
}

/// The field that an instruction writes, where it writes a static one.
pub(crate) fn target<'a>(pool: &'a Pool, insn: &Insn) -> Option<MemberName<'a>>
    ensures { option_map named_of result ≡ target_of pool.now insn.now }
{
    match insn {
        Insn::PutStatic(index) => field_name(pool, *index),
        _ => None,
    }
}
