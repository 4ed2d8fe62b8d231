//! The mote machine: a `Mote` runs a checked image over memory that is taken when the mote is made. A run goes on from the
//! state of the split machine that the mote stands for (`run_loop`), and takes no memory. The main call is `Mote::run`. What
//! a mote is, what a new one stands for and what a run leaves of it is said in specs/Kept.antt. This crate stands on
//! `run_loop`, `split_safety`, `mote_model`, `mote_stack` and `image_check`.
#![tactic(auto)]

mod mote;
mod start;

pub use mote::Mote;
