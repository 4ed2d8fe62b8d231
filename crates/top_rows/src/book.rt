use crate::kinds::fell_short;
use crate::row::{Kind, Row};
use row_form::{Names, RowFault, Tally, key_of};
use std::alloc::{AllocError, Global};

/// The rows as they are read: names of bytes, the row that is being read, and what came of those before.
#[derive(Drop)]
pub(crate) struct Book {
    names: Names,
    row: Option<Row>,
    falls: Vec<String>,
    tally: Tally,
}

impl Book {
    /// No row yet.
    pub(crate) fn new(alloc: Global) -> Result<Book, AllocError> {
        Ok(Book {
            names: Names::new(alloc),
            row: None,
            falls: Vec::new(alloc),
            tally: Tally::new(),
        })
    }

    /// What fell short.
    pub(crate) fn falls(&self) -> &[String] {
        self.falls.as_slice()
    }

    /// How many rows passed.
    pub(crate) fn tally(&self) -> Tally {
        self.tally
    }

    /// Takes a line.
    pub(crate) fn take(&mut self, alloc: Global, line: &str) -> Result<(), AllocError> {
        let (key, rest) = key_of(line);
        if key.is_empty() || key.starts_with('#') {
            return Ok(());
        }
        if key == "name" {
            return self.take_name(alloc, rest);
        }
        match kind_of(key) {
            Some(kind) => {
                self.finish(alloc)?;
                self.row = Some(Row::new(alloc, kind, rest)?);
                Ok(())
            }
            None => self.take_part(alloc, key, rest),
        }
    }

    /// Takes a line that names bytes.
    fn take_name(&mut self, alloc: Global, rest: &str) -> Result<(), AllocError> {
        match self.names.take(alloc, rest) {
            Ok(()) => Ok(()),
            Err(fault) => self.fell(alloc, rest, fault),
        }
    }

    /// Takes a line of the row that is being read.
    fn take_part(&mut self, alloc: Global, key: &str, rest: &str) -> Result<(), AllocError> {
        let Some(row) = &mut self.row else {
            return self.fell(alloc, key, RowFault::Key);
        };
        if let Err(fault) = row.take(alloc, &self.names, key, rest) {
            row.fault = Some(fault);
        }
        Ok(())
    }

    /// Notes that a line without a row falls short.
    fn fell(&mut self, alloc: Global, line: &str, fault: RowFault) -> Result<(), AllocError> {
        let fall = format!(in alloc; "{line}: {fault}")?;
        self.falls.push(fall)?;
        self.tally.count(false);
        Ok(())
    }

    /// Ends the row that is being read.
    pub(crate) fn finish(&mut self, alloc: Global) -> Result<(), AllocError> {
        let Some(row) = self.row.take() else {
            return Ok(());
        };
        let before = self.falls.len();
        fell_short(alloc, &row, &mut self.falls)?;
        self.tally.count(self.falls.len() == before);
        Ok(())
    }
}

/// The kind of a row whose first line begins so.
fn kind_of(key: &str) -> Option<Kind> {
    match key {
        "row" => Some(Kind::Row),
        "program" => Some(Kind::Program),
        "prefixes" => Some(Kind::Prefixes),
        "changes" => Some(Kind::Changes),
        "failing" => Some(Kind::Failing),
        _ => None,
    }
}
