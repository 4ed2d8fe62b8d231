//! Activation frames in one memory of 16-bit cells: `Region`. References grow up from the low end of
//! a frame's body and whole-number cells grow down from its high end, so that no cell has a tag and
//! nothing is moved as the halves grow towards each other. Contracts see a frame as two lists. What a
//! cell means is `cell_num`'s.
#![tactic(auto)]

mod frames;
mod halves;
mod region;
mod roots;
mod shuffle;
#[cfg(test)]
mod tests;

pub use region::{Memory, Region, StackWanted};
