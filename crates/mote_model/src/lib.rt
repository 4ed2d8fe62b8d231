//! The split machine: what an infusion means, over frames that keep references and cells apart. The definitions are in
//! specs/: frames and objects (State), a state over them (SplitState), the operations that instructions name (Numbers),
//! the step of each machine instruction (SplitStep, over SplitMoves, SplitObjects and SplitTypes) and the run (SplitRun).
//! Of the type of an ending, `ConsoleFault` is no ending of the definitions: they know no console that fails. The memory
//! of a mote is `State`; which states of the split machine it stands for (Picture) and what the `Turn` of a step says
//! (Turns) are in specs/ too. This crate stands on `image_form`, whose record an infusion is, `mote_stack`, `image_instr`,
//! `account`, `cell_num` and `dialogue`.
#![tactic(auto)]

mod ending;
mod memory;
mod turn;

pub use ending::Ending;
pub use memory::State;
pub use turn::Turn;
