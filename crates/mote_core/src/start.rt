//! The memory of a new mote: all of it is taken, and main's frame is pushed.

ghost use Rattle.std.specs.Prelude.{◌≡◌, ◌≤◌, IfOk, Some};
ghost use Rattle.image_form.specs.Grammar.{IsImage, IsMain};
ghost use Rattle.mote_model.specs.Picture.{bodies_of as bodies_in};
ghost use Rattle.mote_model.specs.SplitState.{method_at};
ghost use Rattle.split_safety.specs.Safety.{IsSound};
ghost use Rattle.mote_core.specs.Begun.{IsEmpty, HasBegun};

use image_check::Checked;
use image_form::{Image, Method};
use library::FIRST_OWN;
use mote_model::{Ending, State};
use mote_stack::Region;
use std::alloc::{AllocError, Global};

/// The body cells of the methods by their ids; those of the library have none.
fn bodies_of(alloc: Global, image: &Image) -> Result<Vec<u16>, AllocError>
    ensures { IfOk result (λ bodies. bodies.items ≡ bodies_in image.now) }
{
    let mut bodies = vec![in alloc; 0; usize::from(FIRST_OWN)]?;
    for method in image.methods.as_slice() {
        bodies.push(method.body)?;
    }
    Ok(bodies)
}

/// The memory without a frame, on a stack of so many cells.
fn empty_state(alloc: Global, image: &Image, stack: u16) -> Result<State, AllocError>
    requires image { IsImage image.now }
    requires least_stack { 64 ≤ stack }
    requires greatest_stack { stack ≤ 32767 }
    ensures { IfOk result (IsEmpty image.now stack) }
{
    let bodies = bodies_of(alloc, image)?;
    let region = Region::new(alloc, stack, bodies)?;
    let ref_statics = vec![in alloc; 0; usize::from(image.static_refs)]?;
    let mut cell_statics = Vec::new(alloc);
    cell_statics.extend_from_slice(image.static_cells.as_slice())?;
    Ok(State {
        region,
        ref_statics,
        cell_statics,
        collections: 0,
    })
}

/// The method that is main.
fn main_of(image: &Image) -> &Method
    requires { IsMain image.now.methods image.now.main }
    ensures { method_at image.now image.now.main ≡ Some result.now }
{
    &image.methods.as_slice()[usize::from(image.main - FIRST_OWN)]
}

/// Pushes main's frame. One that does not fit is told as an ending.
fn begin(state: &mut State, image: &Image) -> Option<Ending>
    requires image { IsImage image.now }
    requires empty { let region = state.old.region in IsEmpty image.now region.size state.old }
    ensures { let region = state.old.region in HasBegun image.now region.size state.new result }
{
    let main = main_of(image);
    let pushed = state
        .region
        .push_frame(image.main, main.ref_locals, main.cell_locals, 0, 0);
    match pushed {
        Ok(()) => None,
        Err(why) => Some(Ending::StackWanted {
            need: why.need,
            used: why.used,
        }),
    }
}

/// The memory of a new mote of the image, on a stack of so many cells, and the ending that the mote keeps.
pub(crate) fn start(
    alloc: Global,
    checked: &Checked,
    stack: u16,
) -> Result<(State, Option<Ending>), AllocError>
    requires least_stack { 64 ≤ stack }
    requires greatest_stack { stack ≤ 32767 }
    ensures sound { IsSound checked.now }
    ensures begun { IfOk result (λ made. HasBegun checked.now stack made.0 made.1) }
{
    let image = checked.image();
    let mut state = empty_state(alloc, image, stack)?;
    let ending = begin(&mut state, image);
    Ok((state, ending))
}
