//! The outside as the product sees it: a shelf that keeps bytes under names, and a console with an
//! input, an output and notes. The two traits `Shelf` and `Console` say what may be relied on. A
//! `MemShelf` and a `MemConsole` keep all in memory and tell what they keep; `DirShelf` and
//! `StdConsole` reach the files of the current folder and the standard streams, and tell nothing but
//! their counts of faults. This crate stands on `std` alone.
#![tactic(auto)]

mod calls;
mod console;
mod dir_shelf;
mod mem_console;
mod mem_shelf;
mod shelf;
mod std_console;
mod streams;
#[cfg(test)]
mod tests;

pub use console::{Console, ConsoleFailed};
pub use dir_shelf::DirShelf;
pub use mem_console::MemConsole;
pub use mem_shelf::MemShelf;
pub use shelf::{Shelf, ShelfFail};
pub use std_console::StdConsole;

/// There was no memory for what was asked.
pub type Memory = std::alloc::AllocError;
