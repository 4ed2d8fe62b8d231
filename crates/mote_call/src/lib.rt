//! Steps of the mote machine that call and return, over the memory of a mote and a console: returns, calls of static
//! methods, the natives of static methods, and what the machine throws. The main call is `step_call`. What each answers
//! is said by the move of the split machine, in specs/CallTurns.antt; what its parts are asked and answer, in
//! specs/Leaving.antt, specs/Quiet.antt, specs/Reads.antt and specs/Shows.antt. This crate stands on `mote_exec`,
//! `split_safety`, `mote_model`, `mote_stack`, `image_check`, `image_instr`, `host_face`, `library` and the kit's `itoa`.
#![tactic(auto)]

mod calls;
mod leave;
mod natives;
mod returns;
mod step;
mod talk;
mod throws;

pub use step::step_call;
pub use throws::raise;
