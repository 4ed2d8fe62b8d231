//! What the operands of an instruction have to be.

ghost use Rattle.std.specs.Prelude.{◌≡◌, ◌≤◌, true, length};
ghost use Rattle.class_tree.specs.MergeLaws.{IsKnown};
ghost use Rattle.jvm_model.specs.TypesFrames.{IsKnownFrame};
ghost use Rattle.jvm_model.specs.TypesRules.{takes as takes_all};
ghost use Rattle.type_table.specs.Frames.{IsFrame, frame_of};
ghost use Rattle.flow_verify.specs.Needs.{test_of, tests_of};

use crate::values::{
    fits_class, fits_type, has_kind, is_array, is_array_of, is_constructed, is_elements_value,
    is_int, is_this,
};
use body_form::VType;
use class_pool::TypeRef;
use class_tree::ClassSet;
use insn_form::{ElementKind, ValueKind};
use type_table::{FrameId, Store};

/// What an operand has to be.
#[derive(Clone, Copy, Debug)]
pub(crate) enum Need {
    Int,
    /// A reference, but to no object that is not yet constructed.
    Constructed,
    /// A value of a declared type.
    Declared(TypeRef),
    /// No value will do.
    Never,
    /// A reference that fits a class.
    Class(u16),
    /// A reference that fits two classes.
    BothClasses(u16, u16),
    /// A value of a kind and of a declared type.
    Returned(ValueKind, TypeRef),
    /// A reference that fits a class, or the object of a constructor where that is so.
    Written { class: u16, own: bool },
    Array,
    /// An array whose elements instructions of a kind read and write.
    ArrayOf(ElementKind),
    /// What instructions of a kind write to arrays.
    Element(ElementKind),
}

/// A value is what an operand has to be.
pub(crate) fn passes(set: &ClassSet, need: Need, value: VType) -> bool
    requires { IsKnown set.now value }
    ensures { result ≡ test_of set.now need value }
{
    match need {
        Need::Int => is_int(value),
        Need::Constructed => is_constructed(value),
        Need::Declared(declared) => fits_type(set, declared, value),
        Need::Never => false,
        Need::Class(class) => fits_class(set, class, value),
        Need::BothClasses(first, second) => {
            fits_class(set, first, value) && fits_class(set, second, value)
        }
        Need::Returned(kind, declared) => {
            has_kind(kind, value) && fits_type(set, declared, value)
        }
        Need::Written { class, own } => fits_class(set, class, value) || is_this(value) && own,
        Need::Array => is_array(value),
        Need::ArrayOf(kind) => is_array_of(kind, value),
        Need::Element(kind) => is_elements_value(kind, value),
    }
}

/// The operands are there, the top first, and each is what it has to be.
pub(crate) fn takes(set: &ClassSet, store: &Store, frame: FrameId, needs: &[Need]) -> bool
    requires there { IsFrame store.now frame }
    requires known { IsKnownFrame set.now (frame_of store.now frame) }
    ensures takes { result ≡ takes_all (tests_of set.now needs.now) (frame_of store.now frame).stack }
    ensures there { result ≡ true → length needs.now ≤ frame.height }
{
    if needs.len() > frame.height as usize {
        return false;
    }
    for (position, need) in needs.iter().enumerate() {
        match store.operand(frame, position as u32) {
            Some(value) => {
                if !passes(set, *need, value) {
                    return false;
                }
            }
            None => return false,
        }
    }
    true
}
