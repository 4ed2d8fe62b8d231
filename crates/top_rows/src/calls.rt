use crate::row::{File, Row};
use host_face::{MemConsole, MemShelf};
use mote_top::mote;
use std::alloc::{AllocError, Global};

/// What a call must answer, and the call on the console that fails, or 0.
#[derive(Clone, Copy)]
pub(crate) struct Want<'a> {
    pub(crate) code: u8,
    pub(crate) shown: &'a [u8],
    pub(crate) noted: &'a [u8],
    /// What is shown is a prefix of `shown`.
    pub(crate) begins: bool,
    pub(crate) fails: u32,
}

/// The answer of a call: its code, what was shown, and what was noted.
#[derive(Drop)]
pub(crate) struct Answer {
    pub(crate) code: u8,
    console: MemConsole,
}

impl Answer {
    /// What was noted.
    pub(crate) fn noted(&self) -> &[u8] {
        self.console.noted()
    }

    /// The answer is as wanted.
    fn is(&self, want: &Want<'_>) -> bool {
        let shown = self.console.shown();
        let shows = if want.begins {
            want.shown.starts_with(shown)
        } else {
            want.shown == shown
        };
        shows && self.code == want.code && self.noted() == want.noted
    }
}

/// The shelf of the row.
pub(crate) fn shelf_of(alloc: Global, row: &Row) -> Result<MemShelf, AllocError> {
    let mut shelf = MemShelf::new(alloc)?;
    for file in &row.files {
        shelf.put_file(alloc, file.name.as_str(), file.bytes.as_slice())?;
    }
    if row.shelf_fails > 0 {
        shelf.fail_at(alloc, row.shelf_fails)?;
    }
    Ok(shelf)
}

/// The answer of a call with these words, where the console has the row's input.
pub(crate) fn answered(
    alloc: Global,
    row: &Row,
    words: &[String],
    shelf: &mut MemShelf,
    fails: u32,
) -> Result<Answer, AllocError> {
    let mut console = MemConsole::new(alloc, row.input.as_slice(), row.room)?;
    if fails > 0 {
        console.fail_at(alloc, fails)?;
    }
    let code = mote(alloc, words, shelf, &mut console).code();
    Ok(Answer { code, console })
}

/// Sees that a call with these words answers as wanted.
pub(crate) fn call(
    alloc: Global,
    row: &Row,
    words: &[String],
    shelf: &mut MemShelf,
    want: &Want<'_>,
    falls: &mut Vec<String>,
) -> Result<(), AllocError> {
    let answer = answered(alloc, row, words, shelf, want.fails)?;
    if answer.is(want) {
        return Ok(());
    }
    let fall = told(alloc, row, words, &answer)?;
    falls.push(fall)?;
    Ok(())
}

/// The row's name, the words, and what was answered.
pub(crate) fn told(
    alloc: Global,
    row: &Row,
    words: &[String],
    answer: &Answer,
) -> Result<String, AllocError> {
    let shown = String::from_utf8_lossy(alloc, answer.console.shown())?;
    let noted = String::from_utf8_lossy(alloc, answer.console.noted())?;
    format!(in alloc;
        "{}: {words:?}: code {}, shown {shown:?}, noted {noted:?}",
        row.name, answer.code
    )
}

/// Sees that the shelf keeps what the row says.
pub(crate) fn keeps(
    alloc: Global,
    row: &Row,
    shelf: &MemShelf,
    falls: &mut Vec<String>,
) -> Result<(), AllocError> {
    for name in ["M", "X", "h"] {
        if row.infused && name == "h" {
            continue;
        }
        if shelf.file(name) != kept_after(row, name) {
            falls.push(format!(in alloc; "{}: {name} on the shelf", row.name)?)?;
        }
    }
    Ok(())
}

/// What the shelf must keep at the name after the row's calls.
fn kept_after<'a>(row: &'a Row, name: &str) -> Option<&'a [u8]> {
    match find(row.stored.as_slice(), name) {
        Some(bytes) => Some(bytes),
        None => find(row.files.as_slice(), name),
    }
}

/// The bytes of the file of this name.
fn find<'a>(files: &'a [File], name: &str) -> Option<&'a [u8]> {
    for file in files {
        if file.name.as_str() == name {
            return Some(file.bytes.as_slice());
        }
    }
    None
}
