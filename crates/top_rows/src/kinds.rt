use crate::calls::{Want, answered, call, keeps, shelf_of, told};
use crate::row::{File, Kind, Row};
use host_face::MemShelf;
use row_form::words_of;
use std::alloc::{AllocError, Global};

/// Adds what of the row falls short.
pub(crate) fn fell_short(
    alloc: Global,
    row: &Row,
    falls: &mut Vec<String>,
) -> Result<(), AllocError> {
    if let Some(fault) = row.fault {
        return fell(alloc, row, format!(in alloc; "{fault}")?.as_str(), falls);
    }
    match row.kind {
        Kind::Row => each_call(alloc, row, falls),
        Kind::Program => program(alloc, row, falls),
        Kind::Prefixes => prefixes(alloc, row, falls),
        Kind::Changes => changes(alloc, row, falls),
        Kind::Failing => failing(alloc, row, falls),
    }
}

/// Notes that the row falls short.
fn fell(alloc: Global, row: &Row, why: &str, falls: &mut Vec<String>) -> Result<(), AllocError> {
    falls.push(format!(in alloc; "{}: {why}", row.name)?)?;
    Ok(())
}

/// The row's answer.
fn wanted(row: &Row) -> Want<'_> {
    Want {
        code: row.code,
        shown: row.shown.as_slice(),
        noted: row.noted.as_slice(),
        begins: false,
        fails: row.console_fails,
    }
}

/// Calls the program with the words of a text, and sees that it answers as wanted.
fn call_text(
    alloc: Global,
    row: &Row,
    text: &str,
    shelf: &mut MemShelf,
    want: &Want<'_>,
    falls: &mut Vec<String>,
) -> Result<(), AllocError> {
    match words_of(alloc, text) {
        Ok(words) => call(alloc, row, words.as_slice(), shelf, want, falls),
        Err(fault) => fell(alloc, row, format!(in alloc; "{fault}")?.as_str(), falls),
    }
}

/// Infuses `M` to `h`.
fn infuse(
    alloc: Global,
    row: &Row,
    shelf: &mut MemShelf,
    falls: &mut Vec<String>,
) -> Result<(), AllocError> {
    let want = Want {
        code: 0,
        shown: b"",
        noted: b"",
        begins: false,
        fails: 0,
    };
    call_text(alloc, row, "infuse h M", shelf, &want, falls)?;
    if shelf.file("h").is_none() {
        return fell(alloc, row, "nothing is stored", falls);
    }
    Ok(())
}

/// Each call answers as the row says.
fn each_call(alloc: Global, row: &Row, falls: &mut Vec<String>) -> Result<(), AllocError> {
    if row.calls.is_empty() {
        return fell(alloc, row, "no call", falls);
    }
    for words in &row.calls {
        let mut shelf = shelf_of(alloc, row)?;
        if row.infused {
            infuse(alloc, row, &mut shelf, falls)?;
        }
        call(
            alloc,
            row,
            words.as_slice(),
            &mut shelf,
            &wanted(row),
            falls,
        )?;
        keeps(alloc, row, &shelf, falls)?;
    }
    Ok(())
}

/// The program on the default budget, and on each budget up to just enough ticks.
fn program(alloc: Global, row: &Row, falls: &mut Vec<String>) -> Result<(), AllocError> {
    let mut shelf = shelf_of(alloc, row)?;
    infuse(alloc, row, &mut shelf, falls)?;
    call_text(alloc, row, "go M", &mut shelf, &wanted(row), falls)?;
    call_text(alloc, row, "run h", &mut shelf, &wanted(row), falls)?;
    let spent = Want {
        code: 5,
        shown: row.shown.as_slice(),
        noted: b"spent\n",
        begins: true,
        fails: 0,
    };
    for ticks in 0..row.ticks {
        on_ticks(alloc, row, ticks, &mut shelf, &spent, falls)?;
    }
    on_ticks(alloc, row, row.ticks, &mut shelf, &wanted(row), falls)
}

/// The program on so many ticks.
fn on_ticks(
    alloc: Global,
    row: &Row,
    ticks: u64,
    shelf: &mut MemShelf,
    want: &Want<'_>,
    falls: &mut Vec<String>,
) -> Result<(), AllocError> {
    let go = format!(in alloc; "go --ticks {ticks} M")?;
    call_text(alloc, row, go.as_str(), shelf, want, falls)?;
    let run = format!(in alloc; "run h --ticks {ticks}")?;
    call_text(alloc, row, run.as_str(), shelf, want, falls)
}

/// The row's first file and its first call.
fn first(row: &Row) -> Option<(&File, &[String])> {
    let file = row.files.first()?;
    let words = row.calls.first()?;
    Some((file, words.as_slice()))
}

/// Calls the program over this file alone, and sees that it answers as wanted.
fn call_over(
    alloc: Global,
    row: &Row,
    bytes: &[u8],
    want: &Want<'_>,
    falls: &mut Vec<String>,
) -> Result<(), AllocError> {
    let Some((file, words)) = first(row) else {
        return fell(alloc, row, "no file or no call", falls);
    };
    let mut shelf = MemShelf::new(alloc)?;
    shelf.put_file(alloc, file.name.as_str(), bytes)?;
    call(alloc, row, words, &mut shelf, want, falls)
}

/// Each proper prefix of the file is refused.
fn prefixes(alloc: Global, row: &Row, falls: &mut Vec<String>) -> Result<(), AllocError> {
    let Some((file, _)) = first(row) else {
        return fell(alloc, row, "no file or no call", falls);
    };
    if file.bytes.is_empty() {
        return fell(alloc, row, "an empty file", falls);
    }
    for length in 0..file.bytes.len() {
        prefix(alloc, row, &file.bytes.as_slice()[..length], falls)?;
    }
    Ok(())
}

/// This prefix of the file is refused.
fn prefix(
    alloc: Global,
    row: &Row,
    bytes: &[u8],
    falls: &mut Vec<String>,
) -> Result<(), AllocError> {
    let noted = note_of(alloc, row, bytes.len())?;
    let want = Want {
        code: row.code,
        shown: b"",
        noted: noted.as_slice(),
        begins: false,
        fails: 0,
    };
    call_over(alloc, row, bytes, &want, falls)
}

/// What is noted of the prefix of this length.
fn note_of(alloc: Global, row: &Row, length: usize) -> Result<Vec<u8>, AllocError> {
    if length < 4 {
        return Vec::from_slice(alloc, row.short.as_slice());
    }
    let mut noted = Vec::from_slice(alloc, row.noted.as_slice())?;
    if row.counted {
        let end = format!(in alloc; "{length}\n")?;
        noted.extend_from_slice(end.as_bytes())?;
    }
    Ok(noted)
}

/// Each change of a byte by each of the row's differences is answered.
fn changes(alloc: Global, row: &Row, falls: &mut Vec<String>) -> Result<(), AllocError> {
    let Some((file, _)) = first(row) else {
        return fell(alloc, row, "no file or no call", falls);
    };
    if file.bytes.is_empty() || row.by.is_empty() {
        return fell(alloc, row, "an empty file or no difference", falls);
    }
    for place in 0..file.bytes.len() {
        for by in row.by.as_slice() {
            change(alloc, row, place, *by, falls)?;
        }
    }
    Ok(())
}

/// The change of this byte by this difference is answered, and the shelf keeps the file.
fn change(
    alloc: Global,
    row: &Row,
    place: usize,
    by: u8,
    falls: &mut Vec<String>,
) -> Result<(), AllocError> {
    let Some((file, words)) = first(row) else {
        return Ok(());
    };
    let mut bytes = Vec::from_slice(alloc, file.bytes.as_slice())?;
    if place < bytes.len() {
        bytes[place] ^= by;
    }
    let mut shelf = MemShelf::new(alloc)?;
    shelf.put_file(alloc, file.name.as_str(), bytes.as_slice())?;
    let answer = answered(alloc, row, words, &mut shelf, 0)?;
    let kept = shelf.file(file.name.as_str()) == Some(bytes.as_slice());
    if kept && fits(answer.code, answer.noted()) {
        return Ok(());
    }
    let why = told(alloc, row, words, &answer)?;
    falls.push(format!(in alloc; "{why}: {by} at {place}")?)?;
    Ok(())
}

/// The notes are those of a status of this code that may be answered where memory is at hand.
fn fits(code: u8, noted: &[u8]) -> bool {
    match code {
        0 => noted.is_empty(),
        1 => noted == b"uncaught java/lang/ArithmeticException\n".as_slice(),
        3 => noted.starts_with(b"refused ") && noted.ends_with(b"\n"),
        4 => noted.starts_with(b"infusion ") && noted.ends_with(b"\n"),
        5 => noted == b"spent\n".as_slice(),
        7 => noted.starts_with(b"stack need ") && noted.ends_with(b" used 0 size 1024\n"),
        _ => false,
    }
}

/// Each call on the console fails in turn.
fn failing(alloc: Global, row: &Row, falls: &mut Vec<String>) -> Result<(), AllocError> {
    if row.shown.is_empty() && row.noted.is_empty() {
        return fell(alloc, row, "no call of the console", falls);
    }
    for place in 0..row.shown.len() {
        let want = fault_at(place, &row.shown.as_slice()[..place], b"");
        each_fault(alloc, row, &want, falls)?;
    }
    for place in 0..row.noted.len() {
        let call = row.shown.len().saturating_add(place);
        let want = fault_at(call, row.shown.as_slice(), &row.noted.as_slice()[..place]);
        each_fault(alloc, row, &want, falls)?;
    }
    Ok(())
}

/// A fault of the console after so many calls.
fn fault_at<'a>(calls: usize, shown: &'a [u8], noted: &'a [u8]) -> Want<'a> {
    Want {
        code: 8,
        shown,
        noted,
        begins: false,
        fails: (calls.min(1_000_000) as u32) + 1,
    }
}

/// The row's first call answers this fault.
fn each_fault(
    alloc: Global,
    row: &Row,
    want: &Want<'_>,
    falls: &mut Vec<String>,
) -> Result<(), AllocError> {
    let Some((file, _)) = first(row) else {
        return fell(alloc, row, "no file or no call", falls);
    };
    call_over(alloc, row, file.bytes.as_slice(), want, falls)
}
