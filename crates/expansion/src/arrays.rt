//! Instructions on elements of arrays.

ghost use Rattle.std.specs.Prelude.{◌≡◌, ◌++◌, OnOk};
ghost use Rattle.jvm_model.specs.ImageExpansion.{element_of as element_meant, read_element as element_read, is_small_element as is_small_one};
ghost use Rattle.expansion.specs.Expanding.{insns};

use crate::push::push_where;
use crate::shapes::is_one;
use crate::values::extend;
use image_instr::{Element, Kind, MInsn};
use insn_form::ElementKind;
use std::alloc::AllocError;

pub(crate) fn element_of(kind: ElementKind) -> Element
    ensures { result ≡ element_meant kind }
{
    match kind {
        ElementKind::Int => Element::Int,
        ElementKind::Ref => Element::Ref,
        ElementKind::Byte => Element::Byte,
        ElementKind::Char | ElementKind::Short => Element::Half,
    }
}

/// Elements of one cell.
pub(crate) fn is_small_element(kind: ElementKind) -> bool
    ensures { result ≡ is_small_one kind }
{
    match kind {
        ElementKind::Int | ElementKind::Ref => false,
        ElementKind::Byte | ElementKind::Char | ElementKind::Short => true,
    }
}

/// Appends what makes an element that was pushed as wide as it is wanted.
#[tactic(auto, using(crate::proofs::Appended::nothing_more))]
pub(crate) fn read_element(
    kind: ElementKind,
    boolean: bool,
    shape: Kind,
    out: &mut Vec<MInsn>,
) -> Result<(), AllocError>
    ensures { OnOk result (out.new.items ≡ out.old.items ++ insns (element_read kind boolean shape)) }
{
    match kind {
        ElementKind::Int => push_where(is_one(shape), MInsn::Pop { count: 1 }, out),
        ElementKind::Ref => Ok(()),
        ElementKind::Byte => extend(boolean, shape, out),
        ElementKind::Char => extend(true, shape, out),
        ElementKind::Short => extend(false, shape, out),
    }
}
