//! The types that are answered, from the frames that are known.

ghost use Rattle.std.specs.Prelude.{◌≡◌, ℕ, None, IfOk, IfSome, get_or};
ghost use Rattle.std.specs.List.{filter_map, zip};
ghost use Rattle.type_table.specs.Frames.{IsFrame};
ghost use Rattle.flow_verify.specs.KnownRows.{known_rows, row_of as row_of_entry};

use crate::frames::{Frames, Known};
use body_form::{Body, Op};
use std::alloc::Global;
use type_table::{FrameId, Memory, Types};

/// The row of an instruction before which a frame is known.
fn row_of(instruction: &(u32, Op), known: &Option<Known>) -> Option<(u32, FrameId)>
    ensures { result ≡ row_of_entry (instruction.now, known.now) }
{
    match known {
        Some(known) => Some((instruction.0, known.frame)),
        None => None,
    }
}

/// The rows of those instructions before which a frame is known, in their order.
fn rows_of(
    alloc: Global,
    instructions: &[(u32, Op)],
    known: &[Option<Known>],
) -> Result<Vec<(u32, FrameId)>, Memory>
    ensures { IfOk result (λ rows. rows.items ≡ filter_map row_of_entry (zip instructions.now known.now)) }
{
    instructions
        .iter()
        .zip(known.iter())
        .filter_map(|(instruction, known)| row_of(instruction, known))
        .collect(alloc)
}

/// The types of the frames that are known.
pub(crate) fn types_of(alloc: Global, body: &Body, frames: Frames) -> Result<Types, Memory>
    requires { (position : ℕ) → IfSome (get_or frames.known.items position None) (λ known. IsFrame frames.store known.frame) }
    ensures { IfOk result (λ types. types ≡ known_rows body.now.ops frames.store frames.known.items) }
{
    let Frames { store, known } = frames;
    let rows = rows_of(alloc, body.ops.as_slice(), known.as_slice())?;
    Ok(Types::of(store, rows))
}
