use row_form::{Names, RowFault, bytes_of, words_of};
use std::alloc::{AllocError, Global};

/// Room for what a call shows, and as much for what it notes, in bytes.
const ROOM: u32 = 10_000;

/// What is done with a row.
#[derive(Clone, Copy, Debug, Drop, PartialEq, Eq)]
pub(crate) enum Kind {
    /// Each of its calls answers as it says.
    Row,
    /// Its class file, and the infusion of it, end as it says on the default budget and on just enough
    /// ticks, and are spent on each smaller budget.
    Program,
    /// Each proper prefix of its file is refused.
    Prefixes,
    /// Each change of one byte of its file is answered by a status that is not want of memory.
    Changes,
    /// Each call on the console fails in turn, and nothing is shown or noted from there on.
    Failing,
}

/// Bytes under a name of the shelf.
#[derive(Drop)]
pub(crate) struct File {
    pub(crate) name: String,
    pub(crate) bytes: Vec<u8>,
}

/// A row: what is called, over what, and what it must answer.
#[derive(Drop)]
pub(crate) struct Row {
    pub(crate) kind: Kind,
    pub(crate) name: String,
    /// The first line that could not be read.
    pub(crate) fault: Option<RowFault>,
    pub(crate) files: Vec<File>,
    /// The calls run on a shelf on which `infuse h M` was called.
    pub(crate) infused: bool,
    pub(crate) calls: Vec<Vec<String>>,
    pub(crate) input: Vec<u8>,
    /// The call of the shelf that fails, or 0.
    pub(crate) shelf_fails: u32,
    /// The call of the console that fails, or 0.
    pub(crate) console_fails: u32,
    pub(crate) room: u32,
    pub(crate) ticks: u64,
    pub(crate) code: u8,
    pub(crate) shown: Vec<u8>,
    pub(crate) noted: Vec<u8>,
    /// The note has the length of the prefix at its end.
    pub(crate) counted: bool,
    /// What is noted of a prefix of less than four bytes.
    pub(crate) short: Vec<u8>,
    /// What a changed byte differs by.
    pub(crate) by: Vec<u8>,
    /// What the shelf keeps after the calls and did not before.
    pub(crate) stored: Vec<File>,
}

impl Row {
    /// A row of this kind and name, with no call.
    pub(crate) fn new(alloc: Global, kind: Kind, name: &str) -> Result<Row, AllocError> {
        Ok(Row {
            kind,
            name: String::from_str(alloc, name)?,
            fault: None,
            files: Vec::new(alloc),
            infused: false,
            calls: Vec::new(alloc),
            input: Vec::new(alloc),
            shelf_fails: 0,
            console_fails: 0,
            room: ROOM,
            ticks: 0,
            code: 0,
            shown: Vec::new(alloc),
            noted: Vec::new(alloc),
            counted: false,
            short: Vec::new(alloc),
            by: Vec::new(alloc),
            stored: Vec::new(alloc),
        })
    }

    /// Takes a line of the row.
    pub(crate) fn take(
        &mut self,
        alloc: Global,
        names: &Names,
        key: &str,
        rest: &str,
    ) -> Result<(), RowFault> {
        match key {
            "call" => {
                self.calls.push(words_of(alloc, rest)?)?;
                Ok(())
            }
            "infused" => {
                self.infused = true;
                Ok(())
            }
            "counted" => {
                self.counted = true;
                Ok(())
            }
            "file" | "stored" => self.take_file(alloc, names, key, rest),
            "shelf" | "console" | "room" | "ticks" | "code" => self.take_number(key, rest),
            _ => self.take_bytes(alloc, names, key, rest),
        }
    }

    /// Takes a file that is there, or that comes to be there.
    fn take_file(
        &mut self,
        alloc: Global,
        names: &Names,
        key: &str,
        rest: &str,
    ) -> Result<(), RowFault> {
        let file = file_of(alloc, names, rest)?;
        if key == "stored" {
            self.stored.push(file)?;
        } else {
            self.files.push(file)?;
        }
        Ok(())
    }

    /// Takes a number.
    fn take_number(&mut self, key: &str, rest: &str) -> Result<(), RowFault> {
        let Ok(number) = rest.parse::<u32>() else {
            return Err(RowFault::Number);
        };
        match key {
            "shelf" => self.shelf_fails = number,
            "console" => self.console_fails = number,
            "room" => self.room = number,
            "ticks" => self.ticks = number as u64,
            _ => self.code = number.min(255) as u8,
        }
        Ok(())
    }

    /// Takes bytes.
    fn take_bytes(
        &mut self,
        alloc: Global,
        names: &Names,
        key: &str,
        rest: &str,
    ) -> Result<(), RowFault> {
        let bytes = bytes_of(alloc, names, rest)?;
        match key {
            "input" => self.input = bytes,
            "shown" => self.shown = bytes,
            "noted" => self.noted = bytes,
            "short" => self.short = bytes,
            "by" => self.by = bytes,
            _ => return Err(RowFault::Key),
        }
        Ok(())
    }
}

/// A name, and its bytes.
fn file_of(alloc: Global, names: &Names, text: &str) -> Result<File, RowFault> {
    let Some((name, bytes)) = text.split_once(' ') else {
        return Err(RowFault::Lacking);
    };
    let bytes = bytes_of(alloc, names, bytes)?;
    let name = String::from_str(alloc, name)?;
    Ok(File { name, bytes })
}
