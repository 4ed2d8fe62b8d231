//! Asks the readers of class files the questions of standard input, and prints what is answered otherwise
//! and how many rows passed. docs/TESTS.md has the form of a row. This program stands on `class_pool`,
//! `class_file`, `class_code` and `row_form`.
#![tactic(auto)]

mod answers;

use crate::answers::ClassReader;
use row_form::Sheet;
use std::io;

fn main(rt: HostRuntime) -> io::Result<()> {
    let mut sheet = Sheet::new(rt.alloc());
    for line in rt.lines(rt.alloc()) {
        let line = line?;
        sheet.take(rt.alloc(), &ClassReader, line.as_str())?;
    }
    sheet.finish(rt.alloc(), &ClassReader)?;
    for fall in sheet.falls() {
        println!(rt; "{fall}")?;
    }
    let tally = sheet.tally();
    if tally.failed > 0 {
        println!(rt; "{} rows failed", tally.failed)?;
    }
    println!(rt; "{} rows passed", tally.passed)
}
