//! Runs the rows of standard input: calls of `mote` over a shelf and a console in memory, with what each
//! must answer. It prints each row that falls short by its name, and how many passed. docs/TESTS.md has
//! the form of a row. This program stands on `mote_top`, `host_face` and `row_form`.
#![tactic(auto)]

mod book;
mod calls;
mod kinds;
mod row;

use crate::book::Book;
use std::io;

fn main(rt: HostRuntime) -> io::Result<()> {
    let mut book = Book::new(rt.alloc())?;
    for line in rt.lines(rt.alloc()) {
        let line = line?;
        book.take(rt.alloc(), line.as_str())?;
    }
    book.finish(rt.alloc())?;
    for fall in book.falls() {
        println!(rt; "{fall}")?;
    }
    let tally = book.tally();
    if tally.failed > 0 {
        println!(rt; "{} rows failed", tally.failed)?;
    }
    println!(rt; "{} rows passed", tally.passed)
}
