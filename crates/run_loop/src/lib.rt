//! The run of a mote over its memory and a console: the loop over `step_plain`, `step_call` and `raise`. The main call is
//! `run_from`. What a run leaves on a console and of the memory is said in specs/Ran.antt, by the run of the split machine
//! within limits; what one step answers, in specs/StepTurns.antt. This crate stands on `mote_exec`, `mote_call` and
//! `run_measures`.
#![tactic(auto)]

mod running;
mod step;

pub use running::run_from;
