ghost use Rattle.std.specs.Prelude.{◌≡◌, ◌≤◌, IfOk};

use super::*;
use crate::streams::{ReadFailed, StreamFailed, read_whole, write_whole};
use std::alloc::Global;
use std::io::{ErrorKind, Read, Write};
use std::test::Fail;
use std::{fs, io};

#[test]
fn a_shelf_keeps_what_is_put_and_stored(rt: HostRuntime) -> Result<(), Fail> {
    let mut shelf = MemShelf::new(rt.alloc())?;
    shelf.put_file(rt.alloc(), "input", b"put")?;
    shelf.store("output", b"stored")?;
    shelf.store("output", b"again")?;
    assert_eq!(rt;
        shelf.load(rt.alloc(), "input")?.as_slice(),
        b"put".as_slice()
    );
    assert_eq!(rt; shelf.file("output").ok_or("absent")?, b"again".as_slice());
    assert!(rt; shelf.file("other").is_none());
    Ok(())
}

#[test]
fn a_listed_load_and_store_and_an_absent_name_fail(rt: HostRuntime) -> Result<(), Fail> {
    let mut shelf = MemShelf::new(rt.alloc())?;
    shelf.put_file(rt.alloc(), "name", b"old")?;
    shelf.fail_at(rt.alloc(), 1)?;
    shelf.fail_at(rt.alloc(), 3)?;
    assert_eq!(rt;
        shelf.load(rt.alloc(), "name").err(),
        Some(ShelfFail::Failed),
        "the first call"
    );
    assert_eq!(rt;
        shelf.load(rt.alloc(), "name")?.as_slice(),
        b"old".as_slice()
    );
    assert_eq!(rt;
        shelf.store("name", b"new"),
        Err(ShelfFail::Failed),
        "the third call"
    );
    assert_eq!(rt; shelf.file("name").ok_or("lost")?, b"old".as_slice());
    assert_eq!(rt;
        shelf.load(rt.alloc(), "absent").err(),
        Some(ShelfFail::Failed),
        "no such name"
    );
    assert_eq!(rt; shelf.store("name", b"new"), Ok(()));
    assert_eq!(rt; shelf.file("name").ok_or("lost")?, b"new".as_slice());
    Ok(())
}

#[test]
fn a_console_gives_its_input_and_keeps_what_is_shown_and_noted(
    rt: HostRuntime,
) -> Result<(), Fail> {
    let mut console = MemConsole::new(rt.alloc(), b"ab", 2)?;
    for want in [Some(b'a'), Some(b'b'), None, None] {
        assert_eq!(rt; console.get(), Ok(want));
    }
    for (byte, note) in [(b'x', b'1'), (b'y', b'2')] {
        assert_eq!(rt; console.put(byte), Ok(()));
        assert_eq!(rt; console.note(note), Ok(()));
    }
    assert_eq!(rt; console.shown(), b"xy".as_slice());
    assert_eq!(rt; console.noted(), b"12".as_slice());
    Ok(())
}

#[test]
fn a_listed_call_and_a_full_room_fail(rt: HostRuntime) -> Result<(), Fail> {
    let mut console = MemConsole::new(rt.alloc(), b"a", 1)?;
    console.fail_at(rt.alloc(), 1)?;
    console.fail_at(rt.alloc(), 4)?;
    assert_eq!(rt; console.get(), Err(ConsoleFailed), "the first call");
    assert_eq!(rt; console.get(), Ok(Some(b'a')));
    assert_eq!(rt; console.put(b'x'), Ok(()));
    assert_eq!(rt; console.note(b'1'), Err(ConsoleFailed), "the fourth call");
    assert_eq!(rt; console.put(b'y'), Err(ConsoleFailed), "a full output");
    assert_eq!(rt; console.note(b'2'), Ok(()));
    assert_eq!(rt; console.note(b'3'), Err(ConsoleFailed), "full notes");
    assert_eq!(rt; console.shown(), b"x".as_slice());
    assert_eq!(rt; console.noted(), b"2".as_slice());
    Ok(())
}

#[test]
fn a_folder_gives_what_was_stored(rt: HostRuntime) -> Result<(), Fail> {
    let name = "host_face_test_file";
    let mut shelf = DirShelf::new(&rt);
    let stored = shelf.store(name, b"longer").is_ok() && shelf.store(name, b"bytes").is_ok();
    let loaded = shelf.load(rt.alloc(), name);
    let emptied = shelf.store(name, b"").is_ok();
    let empty = shelf.load(rt.alloc(), name);
    fs::remove_file(&rt, name)?;
    assert!(rt; stored);
    assert_eq!(rt; loaded?.as_slice(), b"bytes".as_slice());
    assert!(rt; emptied);
    assert!(rt; empty?.is_empty());
    assert_eq!(rt;
        shelf.load(rt.alloc(), name).err(),
        Some(ShelfFail::Failed),
        "it was removed"
    );
    assert_eq!(rt; shelf.store("no/such/folder", b""), Err(ShelfFail::Failed));
    Ok(())
}

#[test]
fn what_is_no_regular_file_is_written_in_place(rt: HostRuntime) {
    let mut shelf = DirShelf::new(&rt);
    assert_eq!(rt; shelf.store("/dev/null", b"bytes"), Ok(()));
    assert_eq!(rt; shelf.store("/dev/full", b"bytes"), Err(ShelfFail::Failed));
    assert!(rt; fs::metadata(&rt, "/dev/null").is_ok_and(|found| !found.is_file()));
}

#[test]
fn the_standard_streams_answer(rt: HostRuntime) {
    let mut console = StdConsole::new(rt.stdin(), rt.stdout(), rt.stderr());
    assert_eq!(rt; console.put(b'\n'), Ok(()));
    assert_eq!(rt; console.note(b'\n'), Ok(()));
    let _ = console.get();
}

#[test]
fn a_whole_read_passes_over_interruptions_and_stops_at_an_error(
    rt: HostRuntime,
) -> Result<(), Fail> {
    let table: [(&[Step], Result<&[u8], ReadFailed>); 4] = [
        (
            &[
                Step::Interrupted,
                Step::Moves(2),
                Step::Interrupted,
                Step::Moves(9),
            ],
            Ok(b"hello"),
        ),
        (
            &[Step::Moves(2), Step::Broken, Step::Moves(9)],
            Err(ReadFailed::Stream),
        ),
        (&[Step::Moves(2)], Ok(b"he")),
        (&[], Ok(b"")),
    ];
    for (steps, want) in table {
        let mut stream = Scripted::new(rt.alloc(), steps);
        let bytes = read_whole(rt.alloc(), &mut stream);
        assert_eq!(rt; bytes.is_ok(), want.is_ok());
        if let (Ok(bytes), Ok(want)) = (bytes, want) {
            assert_eq!(rt; bytes.as_slice(), want);
        }
    }
    Ok(())
}

#[test]
fn a_whole_write_passes_over_interruptions_and_stops_where_nothing_is_taken(
    rt: HostRuntime,
) -> Result<(), Fail> {
    let table: [(&[Step], Result<(), StreamFailed>, &[u8]); 3] = [
        (
            &[
                Step::Interrupted,
                Step::Moves(2),
                Step::Interrupted,
                Step::Moves(9),
            ],
            Ok(()),
            b"hello",
        ),
        (
            &[Step::Moves(2), Step::Broken, Step::Moves(9)],
            Err(StreamFailed),
            b"he",
        ),
        (
            &[Step::Moves(2), Step::Moves(0), Step::Moves(9)],
            Err(StreamFailed),
            b"he",
        ),
    ];
    for (steps, want, taken) in table {
        let mut stream = Scripted::new(rt.alloc(), steps);
        assert_eq!(rt; write_whole(&mut stream, b"hello"), want);
        assert_eq!(rt; stream.taken.as_slice(), taken);
    }
    Ok(())
}

#[test]
fn a_console_over_streams_fails_where_they_do(rt: HostRuntime) {
    let (broken, full) = (
        [Step::Interrupted, Step::Moves(1), Step::Broken],
        [Step::Moves(1)],
    );
    let mut console = StdConsole::new(
        Scripted::new(rt.alloc(), &broken),
        Scripted::new(rt.alloc(), &broken),
        Scripted::new(rt.alloc(), &full),
    );
    for want in [Ok(Some(b'h')), Err(ConsoleFailed), Ok(None)] {
        assert_eq!(rt; console.get(), want);
    }
    for want in [Ok(()), Err(ConsoleFailed)] {
        assert_eq!(rt; console.put(b'x'), want);
        assert_eq!(rt; console.note(b'1'), want);
    }
}

// What a call of a scripted stream does. After the last step each call moves nothing.
#[derive(Clone, Copy)]
enum Step {
    Interrupted,
    Broken,
    Moves(usize),
}

// Gives the bytes of "hello", and takes what is written, by its steps.
#[derive(Drop)]
struct Scripted<'a> {
    steps: &'a [Step],
    given: &'a [u8],
    taken: Vec<u8>,
}

impl<'a> Scripted<'a> {
    fn new(alloc: Global, steps: &'a [Step]) -> Scripted<'a> {
        Scripted {
            steps,
            given: b"hello",
            taken: Vec::new(alloc),
        }
    }

    // How many of so many bytes this call moves.
    fn moved(&mut self, most: usize) -> io::Result<usize>
        ensures few { IfOk result (λ moved. moved ≤ most) }
        ensures given { self.new.given.now ≡ self.old.given.now }
    {
        match self.steps.split_first() {
            None => Ok(0),
            Some((step, rest)) => {
                self.steps = rest;
                match step {
                    Step::Interrupted => Err(io::Error::from(ErrorKind::Interrupted)),
                    Step::Broken => Err(io::Error::from(ErrorKind::Other)),
                    Step::Moves(count) => Ok(most.min(*count)),
                }
            }
        }
    }
}

impl Read for Scripted<'_> {
    fn read(&mut self, buffer: &mut [u8]) -> io::Result<usize> {
        let most = buffer.len().min(self.given.len());
        let count = self.moved(most)?;
        buffer[..count].copy_from_slice(&self.given[..count]);
        self.given = &self.given[count..];
        Ok(count)
    }
}

impl Write for Scripted<'_> {
    fn write(&mut self, bytes: &[u8]) -> io::Result<usize> {
        let count = self.moved(bytes.len())?;
        self.taken.extend_from_slice(&bytes[..count])?;
        Ok(count)
    }

    fn flush(&mut self) -> io::Result<()> {
        Ok(())
    }
}
