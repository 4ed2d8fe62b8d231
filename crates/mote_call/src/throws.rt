//! What the machine throws.

ghost use Rattle.split_safety.specs.Ready.{Shown};
ghost use Rattle.split_safety.specs.Reached.{IsReached};
ghost use Rattle.split_safety.specs.Safety.{IsSound};
ghost use Rattle.mote_model.specs.Picture.{Pictures};
ghost use Rattle.mote_call.specs.CallTurns.{RaiseEnds};

use mote_model::{Ending, State, Turn};

/// Throws an object of a class that the machine makes. No method has handlers, so the run ends.
pub fn raise(mote: &mut State, class: u16, left: &mut u64) -> Turn
    ghost shown: { Shown }

    requires sound { IsSound shown.image }
    requires reached { IsReached shown.image shown.state }
    requires pictures { Pictures shown.image shown.naming shown.size mote.old shown.state }
    ensures { RaiseEnds shown class mote.old mote.new left.old left.new result }
{
    Turn::Ends(Ending::Uncaught { class })
}
