use crate::bytes::bytes_of;
use crate::fault::RowFault;
use std::alloc::Global;

/// Bytes under names, as rows cite them.
#[derive(Drop)]
pub struct Names {
    entries: Vec<Entry>,
}

#[derive(Drop)]
struct Entry {
    name: String,
    bytes: Vec<u8>,
}

impl Names {
    /// No names.
    pub fn new(alloc: Global) -> Names {
        Names {
            entries: Vec::new(alloc),
        }
    }

    /// Gives the bytes this name.
    fn add(&mut self, alloc: Global, name: &str, bytes: Vec<u8>) -> Result<(), RowFault> {
        let name = String::from_str(alloc, name)?;
        self.entries.push(Entry { name, bytes })?;
        Ok(())
    }

    /// Takes a name, and what bytes it is given.
    pub fn take(&mut self, alloc: Global, text: &str) -> Result<(), RowFault> {
        let Some((name, bytes)) = text.split_once(' ') else {
            return Err(RowFault::Lacking);
        };
        let bytes = bytes_of(alloc, self, bytes)?;
        self.add(alloc, name, bytes)
    }

    /// The bytes of this name.
    pub fn get(&self, name: &str) -> Result<&[u8], RowFault> {
        for entry in &self.entries {
            if entry.name.as_str() == name {
                return Ok(entry.bytes.as_slice());
            }
        }
        Err(RowFault::Name)
    }
}
