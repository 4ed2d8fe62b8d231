use crate::bytes::bytes_of;
use crate::fault::RowFault;
use crate::names::Names;
use crate::tally::Tally;
use crate::words::key_of;
use std::alloc::{AllocError, Global};

/// What answers the questions of a sheet.
pub trait Reader {
    /// What is answered about the bytes, as text; nothing where there is no such question.
    fn answer(
        &self,
        alloc: Global,
        question: &str,
        bytes: &[u8],
    ) -> Result<Option<String>, AllocError>;
}

/// What is done with a row.
#[derive(Clone, Copy, Debug, Drop, PartialEq, Eq)]
enum Kind {
    /// The bytes have this answer.
    Ask,
    /// Each proper prefix has this answer, or the one for less than four bytes.
    Prefixes,
    /// No change of one byte has this answer.
    Changes,
}

/// A question about bytes, and its answer.
#[derive(Drop)]
struct Row {
    kind: Kind,
    question: String,
    name: String,
    fault: Option<RowFault>,
    bytes: Vec<u8>,
    answer: String,
    short: String,
}

/// Questions about bytes as they are read, and what came of them.
#[derive(Drop)]
pub struct Sheet {
    names: Names,
    row: Option<Row>,
    falls: Vec<String>,
    tally: Tally,
}

impl Sheet {
    /// No question yet.
    pub fn new(alloc: Global) -> Sheet {
        Sheet {
            names: Names::new(alloc),
            row: None,
            falls: Vec::new(alloc),
            tally: Tally::new(),
        }
    }

    /// What fell short.
    pub fn falls(&self) -> &[String] {
        self.falls.as_slice()
    }

    /// How many rows passed.
    pub fn tally(&self) -> Tally {
        self.tally
    }

    /// Takes a line.
    pub fn take<R: Reader>(
        &mut self,
        alloc: Global,
        reader: &R,
        line: &str,
    ) -> Result<(), AllocError> {
        let (key, rest) = key_of(line);
        if key.is_empty() || key.starts_with('#') {
            return Ok(());
        }
        if key == "name" {
            return self.take_name(alloc, rest);
        }
        match kind_of(key) {
            Some(kind) => {
                self.finish(alloc, reader)?;
                self.row = Some(row_of(alloc, kind, rest)?);
                Ok(())
            }
            None => self.take_part(alloc, key, rest),
        }
    }

    /// Takes a line that names bytes.
    fn take_name(&mut self, alloc: Global, rest: &str) -> Result<(), AllocError> {
        match self.names.take(alloc, rest) {
            Ok(()) => Ok(()),
            Err(fault) => self.fell(alloc, rest, fault),
        }
    }

    /// Takes a line of the row that is being read.
    fn take_part(&mut self, alloc: Global, key: &str, rest: &str) -> Result<(), AllocError> {
        let Some(row) = &mut self.row else {
            return self.fell(alloc, key, RowFault::Key);
        };
        if let Err(fault) = row.take(alloc, &self.names, key, rest) {
            row.fault = Some(fault);
        }
        Ok(())
    }

    /// Notes that a line without a row falls short.
    fn fell(&mut self, alloc: Global, line: &str, fault: RowFault) -> Result<(), AllocError> {
        let fall = format!(in alloc; "{line}: {fault}")?;
        self.falls.push(fall)?;
        self.tally.count(false);
        Ok(())
    }

    /// Ends the row that is being read.
    pub fn finish<R: Reader>(&mut self, alloc: Global, reader: &R) -> Result<(), AllocError> {
        let Some(row) = self.row.take() else {
            return Ok(());
        };
        let before = self.falls.len();
        row.try_on(alloc, reader, &mut self.falls)?;
        self.tally.count(self.falls.len() == before);
        Ok(())
    }
}

/// The kind of a row whose first line begins so.
fn kind_of(key: &str) -> Option<Kind> {
    match key {
        "ask" => Some(Kind::Ask),
        "prefixes" => Some(Kind::Prefixes),
        "changes" => Some(Kind::Changes),
        _ => None,
    }
}

/// A row of this kind, whose question and name are these.
fn row_of(alloc: Global, kind: Kind, text: &str) -> Result<Row, AllocError> {
    let (question, name) = key_of(text);
    Ok(Row {
        kind,
        question: String::from_str(alloc, question)?,
        name: String::from_str(alloc, name)?,
        fault: None,
        bytes: Vec::new(alloc),
        answer: String::new(alloc),
        short: String::new(alloc),
    })
}

impl Row {
    /// Takes a line of the row.
    fn take(
        &mut self,
        alloc: Global,
        names: &Names,
        key: &str,
        rest: &str,
    ) -> Result<(), RowFault> {
        match key {
            "bytes" => self.bytes = bytes_of(alloc, names, rest)?,
            "answer" => self.answer = String::from_str(alloc, rest)?,
            "short" => self.short = String::from_str(alloc, rest)?,
            _ => return Err(RowFault::Key),
        }
        Ok(())
    }

    /// Adds what of the row falls short.
    fn try_on<R: Reader>(
        &self,
        alloc: Global,
        reader: &R,
        falls: &mut Vec<String>,
    ) -> Result<(), AllocError> {
        if let Some(fault) = self.fault {
            falls.push(format!(in alloc; "{}: {fault}", self.name)?)?;
            return Ok(());
        }
        if self.kind != Kind::Ask && self.bytes.is_empty() {
            falls.push(format!(in alloc; "{}: no bytes", self.name)?)?;
            return Ok(());
        }
        match self.kind {
            Kind::Ask => self.ask(alloc, reader, self.bytes.as_slice(), true, falls),
            Kind::Prefixes => self.prefixes(alloc, reader, falls),
            Kind::Changes => self.changes(alloc, reader, falls),
        }
    }

    /// Asks about these bytes: the answer is the wanted one, or is not.
    fn ask<R: Reader>(
        &self,
        alloc: Global,
        reader: &R,
        bytes: &[u8],
        wanted: bool,
        falls: &mut Vec<String>,
    ) -> Result<(), AllocError> {
        let want = if wanted && bytes.len() < 4 && !self.short.is_empty() {
            self.short.as_str()
        } else {
            self.answer.as_str()
        };
        let Some(got) = reader.answer(alloc, self.question.as_str(), bytes)? else {
            falls.push(format!(in alloc; "{}: no question {}", self.name, self.question)?)?;
            return Ok(());
        };
        if (got.as_str() == want) != wanted {
            let length = bytes.len();
            falls.push(format!(in alloc; "{}: {length} bytes: {got}", self.name)?)?;
        }
        Ok(())
    }

    /// Asks about each proper prefix.
    fn prefixes<R: Reader>(
        &self,
        alloc: Global,
        reader: &R,
        falls: &mut Vec<String>,
    ) -> Result<(), AllocError> {
        for length in 0..self.bytes.len() {
            let prefix = &self.bytes.as_slice()[..length];
            self.ask(alloc, reader, prefix, true, falls)?;
        }
        Ok(())
    }

    /// Asks about each change of one byte.
    fn changes<R: Reader>(
        &self,
        alloc: Global,
        reader: &R,
        falls: &mut Vec<String>,
    ) -> Result<(), AllocError> {
        for place in 0..self.bytes.len() {
            let mut bytes = Vec::from_slice(alloc, self.bytes.as_slice())?;
            self.changes_at(alloc, reader, &mut bytes, place, falls)?;
        }
        Ok(())
    }

    /// Asks about each change of this byte.
    fn changes_at<R: Reader>(
        &self,
        alloc: Global,
        reader: &R,
        bytes: &mut Vec<u8>,
        place: usize,
        falls: &mut Vec<String>,
    ) -> Result<(), AllocError> {
        for _ in 0..255 {
            if place < bytes.len() {
                bytes[place] = bytes[place].wrapping_add(1);
            }
            self.ask(alloc, reader, bytes.as_slice(), false, falls)?;
        }
        Ok(())
    }
}
