//! Objects that are not yet constructed (JVMS 4.10.2.4), and equal types.

ghost use Rattle.std.specs.Prelude.{◌≡◌, MatchBool};
ghost use Rattle.jvm_model.specs.TypesRules.{is_same_object as is_same_object_of, renamed_one};
ghost use Rattle.type_table.specs.Frames.{is_unconstructed as is_unconstructed_of};

use body_form::VType;

/// An object that is not yet constructed.
pub(crate) fn is_unconstructed(value: VType) -> bool
    ensures { result ≡ is_unconstructed_of value }
{
    matches!(value, VType::New(_) | VType::This)
}

/// Two objects that are not yet constructed are the same.
pub(crate) fn is_same_object(a: VType, b: VType) -> bool
    ensures { result ≡ is_same_object_of a b }
{
    match (a, b) {
        (VType::New(p), VType::New(q)) => p == q,
        (VType::This, VType::This) => true,
        _ => false,
    }
}

/// The other type in place of an object, and else the type itself.
pub(crate) fn renamed(from: VType, to: VType, value: VType) -> VType
    ensures { result ≡ renamed_one from to value }
{
    if is_same_object(from, value) {
        to
    } else {
        value
    }
}

/// Two types are the same.
pub(crate) fn is_same(a: VType, b: VType) -> bool
    ensures { MatchBool result (a ≡ b) (a ≡ b → ⊥) }
{
    a == b
}
