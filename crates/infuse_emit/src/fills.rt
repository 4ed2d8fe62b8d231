//! What extends parameters at entry.

ghost use Rattle.std.specs.Prelude.{◌≡◌, ◌++◌, OnOk};
ghost use Rattle.std.specs.List.{flat_map};
ghost use Rattle.jvm_model.specs.ImageExpansion.{bytes_of};
ghost use Rattle.jvm_model.specs.WidthsFrame.{fill_insns};

use image_instr::{Kind, MInsn, encode};
use jvm_model::Fill;
use std::alloc::{AllocError, Global};

/// Appends the bytes that extend a parameter.
fn write_fill(alloc: Global, fill: Fill, out: &mut Vec<u8>) -> Result<(), AllocError>
    ensures { OnOk result (out.new.items ≡ out.old.items ++ bytes_of (fill_insns fill)) }
{
    let load = MInsn::Load {
        kind: Kind::One,
        local: fill.from,
    };
    let extend = if fill.zero { MInsn::Zx } else { MInsn::Sx };
    let store = MInsn::Store {
        kind: Kind::Two,
        local: fill.to,
    };
    encode(alloc, load, &[], out)?;
    encode(alloc, extend, &[], out)?;
    encode(alloc, store, &[], out)
}

/// Appends the bytes that extend parameters.
pub(crate) fn write_fills(
    alloc: Global,
    fills: &[Fill],
    out: &mut Vec<u8>,
) -> Result<(), AllocError>
    ensures { OnOk result (out.new.items ≡ out.old.items ++ bytes_of (flat_map fill_insns fills.now)) }
{
    for fill in fills {
        match write_fill(alloc, *fill, out) {
            Ok(()) => {}
            Err(why) => return Err(why),
        }
    }
    Ok(())
}
