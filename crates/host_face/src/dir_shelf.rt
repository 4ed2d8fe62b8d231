ghost use Rattle.std.specs.Prelude.{◌≡◌, ◌<◌, ◌≤◌, OnOk, OnErr, IfErr, IsErrOf};
ghost use Rattle.host_face.specs.DirShelf.{load_failed, store_failed};

use crate::shelf::{Shelf, ShelfFail};
use crate::streams;
use crate::streams::StreamFailed;
use std::alloc::Global;
use std::fs;
use std::fs::{File, OpenFile, OpenOptions, Permissions};
use std::io::ErrorKind;
use std::marker::Model;
use std::rt::Files;

/// The most bytes of the name of a new file.
const PATH_ROOM: usize = 4096;

/// How the name of a new file begins; two digits follow.
const NEW_FILE: &[u8; 12] = b".mote-store-";

/// The files of the current folder. It tells no content, and counts the failed loads and the failed
/// stores, each for all names together.
#[derive(Drop)]
pub struct DirShelf<R> {
    runtime: R,
    failed_loads: u64,
    failed_stores: u64,
}

impl<R> Model for DirShelf<R> {
    ghost use Rattle.host_face.specs.DirShelf.{DirFaults};

    ghost Value = { DirFaults };

    ghost view = { λ a. record { load_faults = a.failed_loads; store_faults = a.failed_stores } };
}

impl<R: Files> DirShelf<R> {
    /// The shelf of the current folder, whose files are reached through the runtime.
    pub fn new(runtime: R) -> DirShelf<R>
        ensures { result ≡ record { load_faults = 0; store_faults = 0 } }
    {
        DirShelf {
            runtime,
            failed_loads: 0,
            failed_stores: 0,
        }
    }
}

fn read_file<R: Files>(runtime: &R, alloc: Global, name: &str) -> Result<Vec<u8>, ShelfFail> {
    match File::open(runtime, name) {
        Ok(mut file) => match streams::read_whole(alloc, &mut file) {
            Ok(bytes) => Ok(bytes),
            Err(why) => Err(ShelfFail::from(why)),
        },
        Err(_) => Err(ShelfFail::Failed),
    }
}

// A regular file is replaced whole, and so is one that is absent. Anything else, as a device, a pipe
// or a symbolic link, is written in place.
fn write_file<R: Files>(runtime: &R, name: &str, bytes: &[u8]) -> Result<(), StreamFailed> {
    match fs::symlink_metadata(runtime, name) {
        Ok(found) if found.is_file() => {
            // A file that may not be written is not replaced either.
            match OpenOptions::new().write(true).open(runtime, name) {
                Ok(_) => replace_file(runtime, name, Some(found.permissions()), bytes),
                Err(_) => Err(StreamFailed),
            }
        }
        Ok(_) => write_in_place(runtime, name, bytes),
        Err(error) if error.kind() == ErrorKind::NotFound => {
            replace_file(runtime, name, None, bytes)
        }
        Err(_) => Err(StreamFailed),
    }
}

fn write_in_place<R: Files>(runtime: &R, name: &str, bytes: &[u8]) -> Result<(), StreamFailed> {
    match File::create(runtime, name) {
        Ok(mut file) => streams::write_whole(&mut file, bytes),
        Err(_) => Err(StreamFailed),
    }
}

// Writes a new file in the folder of the name, and then gives it the name.
fn replace_file<R: Files>(
    runtime: &R,
    name: &str,
    permissions: Option<Permissions>,
    bytes: &[u8],
) -> Result<(), StreamFailed> {
    let mut room = [0; PATH_ROOM];
    for number in 0..100 {
        let Some(beside) = name_beside(name, number, &mut room) else {
            return Err(StreamFailed);
        };
        match File::create_new(runtime, beside) {
            Ok(mut file) => {
                if let Some(permissions) = permissions {
                    // A file system without permissions refuses, and the bytes are stored all the same.
                    let _ = file.set_permissions(permissions);
                }
                return move_file(runtime, file, beside, name, bytes);
            }
            Err(error) => {
                if error.kind() != ErrorKind::AlreadyExists {
                    return Err(StreamFailed);
                }
            }
        }
    }
    Err(StreamFailed)
}

// Fills the new file and gives it the name. After a failure the new file is gone.
fn move_file<R: Files>(
    runtime: &R,
    mut file: R::File,
    beside: &str,
    name: &str,
    bytes: &[u8],
) -> Result<(), StreamFailed> {
    let written = streams::write_whole(&mut file, bytes).is_ok() && file.sync_all().is_ok();
    drop(file);
    if written && fs::rename(runtime, beside, name).is_ok() {
        return Ok(());
    }
    let _ = fs::remove_file(runtime, beside);
    Err(StreamFailed)
}

// The name of a new file in the folder of this name; None where the room is too small for it.
fn name_beside<'a>(name: &str, number: u8, room: &'a mut [u8; PATH_ROOM]) -> Option<&'a str>
    requires { number < 100 }
{
    let folder = name.rfind('/').map_or(0, |slash| slash + 1);
    let digits = [b'0' + number / 10, b'0' + number % 10];
    let (start, end) = (
        folder + NEW_FILE.len(),
        folder + NEW_FILE.len() + digits.len(),
    );
    if end > PATH_ROOM {
        return None;
    }
    room[..folder].copy_from_slice(&name.as_bytes()[..folder]);
    room[folder..start].copy_from_slice(NEW_FILE);
    room[start..end].copy_from_slice(&digits);
    str::from_utf8(&room[..end]).ok()
}

impl<R: Files> Shelf for DirShelf<R> {
    ghost use Rattle.std.specs.Prelude.{None};

    ghost kept = { λ _. None };

    ghost load_faults = { λ shelf _. shelf.load_faults };

    ghost store_faults = { λ shelf _. shelf.store_faults };

    /// The bytes of the file of this name. `Memory` where there is none for the bytes; `Failed` where
    /// the file cannot be opened or read, and where it has more than 1,073,741,824 bytes.
    fn load(&mut self, alloc: Global, name: &str) -> Result<Vec<u8>, ShelfFail>
        ensures done { OnOk result (self.new ≡ self.old) }
        ensures undone { IsErrOf result ShelfFail.Failed → self.new ≡ load_failed self.old }
        ensures no_memory { IsErrOf result ShelfFail.Memory → self.new ≡ self.old }
        ensures load_faults { self.old.load_faults ≤ self.new.load_faults }
    {
        let result = read_file(&self.runtime, alloc, name);
        if let Err(ShelfFail::Failed) = result {
            self.failed_loads = self.failed_loads.saturating_add(1);
        }
        result
    }

    /// Makes the file of this name hold the bytes alone. `Failed` where it cannot be made or written. A
    /// regular file then holds what it held, and an absent one is absent; what is of another kind, as a
    /// device or a symbolic link, is written in place, and may then hold the first of the bytes.
    fn store(&mut self, name: &str, bytes: &[u8]) -> Result<(), ShelfFail>
        ensures done { OnOk result (self.new ≡ self.old) }
        ensures undone { OnErr result (self.new ≡ store_failed self.old) }
        ensures fault { IfErr result (λ fail. fail ≡ ShelfFail.Failed) }
        ensures store_faults { self.old.store_faults ≤ self.new.store_faults }
    {
        match write_file(&self.runtime, name, bytes) {
            Ok(()) => Ok(()),
            Err(StreamFailed) => {
                self.failed_stores = self.failed_stores.saturating_add(1);
                Err(ShelfFail::Failed)
            }
        }
    }
}
