//! A run of a checked image on the split machine is never stuck (specs/Safety.antt): what a state is that such runs come
//! to (specs/Reached.antt), which instructions are run so far (specs/Runs.antt), and what is asked of the memory of a mote
//! before a step (specs/Ready.antt). This crate stands on `mote_model`, `image_check`, `image_form` and `account`.
#![tactic(auto)]

ghost use Rattle.split_safety.specs.Safety.{MovesStayReached, StartsAreReached};

/// A move from a state that runs of a checked image come to goes on to such a state, or ends the run; and runs start in
/// one.
pub fn checked_images_are_safe()
    ensures moves { MovesStayReached }
    ensures starts { StartsAreReached }
{}
