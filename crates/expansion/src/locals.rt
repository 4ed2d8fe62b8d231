//! Instructions on locals.

ghost use Rattle.std.specs.Prelude.{◌≡◌, ◌++◌, OnOk};
ghost use Rattle.jvm_model.specs.ImageExpansion.{load as loaded, store as stored};
ghost use Rattle.expansion.specs.Expanding.{insns, locals_of};

use crate::around::Numbers;
use crate::push::push;
use crate::shapes::kind_of_width;
use image_instr::{Kind, MInsn};
use insn_form::ValueKind;
use std::alloc::AllocError;

/// The push of a local, which is the one of these numbers.
pub(crate) fn load(numbers: Numbers, kind: ValueKind, local: u16) -> MInsn
    ensures { result ≡ loaded (locals_of numbers) kind local }
{
    match kind {
        ValueKind::Ref => MInsn::Load {
            kind: Kind::Ref,
            local: numbers.slot.unwrap_or(0),
        },
        ValueKind::Int => MInsn::Load {
            kind: kind_of_width(numbers.width),
            local: numbers.cell,
        },
    }
}

/// Appends the store of a whole number, which clears the local's slot.
#[tactic(auto, using(crate::proofs::Appended::both, crate::proofs::Appended::nothing_more))]
fn store_number(numbers: Numbers, local: u16, out: &mut Vec<MInsn>) -> Result<(), AllocError>
    ensures { OnOk result (out.new.items ≡ out.old.items ++ insns (stored (locals_of numbers) ValueKind.Int local)) }
{
    push(
        MInsn::Store {
            kind: kind_of_width(numbers.width),
            local: numbers.cell,
        },
        out,
    )?;
    match numbers.slot {
        Some(slot) => push(MInsn::RClear { local: slot }, out),
        None => Ok(()),
    }
}

/// Appends the store to a local, which is the one of these numbers.
pub(crate) fn store(
    numbers: Numbers,
    kind: ValueKind,
    local: u16,
    out: &mut Vec<MInsn>,
) -> Result<(), AllocError>
    ensures { OnOk result (out.new.items ≡ out.old.items ++ insns (stored (locals_of numbers) kind local)) }
{
    match kind {
        ValueKind::Ref => push(
            MInsn::Store {
                kind: Kind::Ref,
                local: numbers.slot.unwrap_or(0),
            },
            out,
        ),
        ValueKind::Int => store_number(numbers, local, out),
    }
}
