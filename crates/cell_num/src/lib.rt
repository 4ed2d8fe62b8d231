//! Whole numbers of 32 bits, and the 16-bit cells in which the machine keeps them. It answers what
//! the int instructions of the Java standard compute (JVMS 6.5), how an int is told by one or two
//! cells, and which range with simple ends holds a range of results. The main call is `apply`. This
//! crate stands on `std` alone.
#![tactic(auto)]

mod arithmetic;
mod cells;
mod conditions;
mod conversions;
mod counter;
mod ranges;
#[cfg(test)]
mod tests;

pub use arithmetic::{BinOp, apply};
pub use cells::{join, low, sext, split};
pub use conditions::{Cond, holds};
pub use conversions::{Conv, convert};
pub use counter::Steps;
pub use ranges::{Range, round_out};
