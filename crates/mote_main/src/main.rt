//! The program: it makes the shelf of the current folder and the console of the standard streams, hands
//! them to `mote` with the words of the command line, and ends with the code of the status.
#![tactic(auto)]

use host_face::{DirShelf, StdConsole};
use mote_top::{Status, mote};
use std::io::ErrorKind;
use std::process::ExitCode;
use std::{env, io};

fn main(rt: HostRuntime) -> ExitCode {
    match words(&rt) {
        Ok(words) => {
            let mut shelf = DirShelf::new(&rt);
            let mut console = StdConsole::new(rt.stdin(), rt.stdout(), rt.stderr());
            ExitCode::from(mote(rt.alloc(), words.as_slice(), &mut shelf, &mut console).code())
        }
        Err(status) => ExitCode::from(status.code()),
    }
}

/// The words of the command line after the program's name. Words that are no text are no command.
fn words(rt: &HostRuntime) -> Result<Vec<String>, Status> {
    match given(rt) {
        Ok(words) => Ok(words),
        Err(error) if error.kind() == ErrorKind::OutOfMemory => Err(Status::Memory),
        Err(_) => Err(Status::Words { place: 0 }),
    }
}

fn given(rt: &HostRuntime) -> io::Result<Vec<String>> {
    let mut words = Vec::new(rt.alloc());
    for word in env::args(rt)?.skip(1) {
        words.push(word)?;
    }
    Ok(words)
}
