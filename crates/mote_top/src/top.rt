ghost use Rattle.std.specs.Prelude.{◌≡◌, ◌≤◌, ℕ, List, length, map, drop, IfOk, IfErr};
ghost use Rattle.std.specs.String.{string_bytes};
ghost use Rattle.dialogue.specs.Limits.{Limits};
ghost use Rattle.host_face.specs.Shelf.{NeverFell};
ghost use Rattle.mote_top.specs.Words.{IsName, AreNames, IsCommand, Setting, AreOptions, infuse_of, run_of, go_of, class_place, opts_of, opts_for, limits_in, HasSizes};
ghost use Rattle.mote_top.specs.Call.{shelved, spoken, call, after};
ghost use Rattle.mote_top.specs.Reply.{MayReply, HasAt, HaveAll, IsInfusionOf, dialogue_of};
ghost use Rattle.mote_top.specs.Answer.{Answers, IsQuiet, IsNoted};
ghost use Rattle.mote_top.specs.Headline.{IsReplied, KeepsShelf, ChangesOwn};
ghost use Rattle.mote_top.specs.Storing.{IsRefusedStatus, IsStored, FailsAt, FailsToLoad};

use crate::machine::{refused, run_classes, run_infusion};
use crate::note::note_status;
use crate::status::Status;
use crate::words::{Command, DEFAULT_OPTS, Opts, place_of, read_words};
use host_face::{Console, ConsoleFailed, Shelf, ShelfFail};
use image_form::write_image;
use infuse_link::infuse;
use set_outcome::accepted_sets_run;
use std::alloc::Global;

/// The status, once its line is noted.
pub(crate) fn replied<S: Shelf, C: Console>(
    alloc: Global,
    words: &[String],
    shelf: &mut S,
    console: &mut C,
) -> Status
    ensures replied { IsReplied
        (call (map string_bytes words.now) (shelved S.kept S.load_faults S.store_faults shelf.old) (spoken C.left C.shown C.noted C.faults C.room console.old))
        (after (shelved S.kept S.load_faults S.store_faults shelf.new) (spoken C.left C.shown C.noted C.faults C.room console.new) result) }
    ensures shelf { KeepsShelf (map string_bytes words.now) (shelved S.kept S.load_faults S.store_faults shelf.old) (shelved S.kept S.load_faults S.store_faults shelf.new) }
{
    match read_words(words) {
        Ok(command) => {
            let status = answer(alloc, words, command, shelf, console);
            noted(console, command.opts(), status)
        }
        Err(fault) => noted(console, DEFAULT_OPTS, Status::Words { place: fault.place }),
    }
}

/// The status, once its line is noted.
fn noted<C: Console>(console: &mut C, opts: Opts, status: Status) -> Status
    ensures { IsNoted (limits_in opts) (spoken C.left C.shown C.noted C.faults C.room console.old) (spoken C.left C.shown C.noted C.faults C.room console.new) status result }
{
    if !status.has_note() {
        return status;
    }
    match note_status(console, opts, &status) {
        Ok(()) => status,
        Err(ConsoleFailed) => Status::ConsoleFault,
    }
}

/// The status of a command, before its line is noted.
fn answer<S: Shelf, C: Console>(
    alloc: Global,
    words: &[String],
    command: Command,
    shelf: &mut S,
    console: &mut C,
) -> Status
    requires command { IsCommand (map string_bytes words.now) command }
    ensures replied { Answers dialogue_of
        (MayReply (call (map string_bytes words.now) (shelved S.kept S.load_faults S.store_faults shelf.old) (spoken C.left C.shown C.noted C.faults C.room console.old))
        (shelved S.kept S.load_faults S.store_faults shelf.new) (limits_in (opts_for command)))
        (spoken C.left C.shown C.noted C.faults C.room console.old) (spoken C.left C.shown C.noted C.faults C.room console.new) result }
    ensures shelf { KeepsShelf (map string_bytes words.now) (shelved S.kept S.load_faults S.store_faults shelf.old) (shelved S.kept S.load_faults S.store_faults shelf.new) }
{
    match command {
        Command::Infuse { out, first } => infuse_to(
            alloc,
            words[out as usize].as_str(),
            names_from(words, first),
            shelf,
        ),
        Command::Run { name, opts } => {
            run(alloc, words[name as usize].as_str(), opts, shelf, console)
        }
        Command::Go { opts, first } => go(
            alloc,
            names_from(words, first),
            first,
            opts,
            shelf,
            console,
        ),
    }
}

/// The names that the words have from this place on.
fn names_from(words: &[String], first: u32) -> &[String]
    requires { first ≤ length words.now }
    ensures { result.now ≡ drop first words.now }
{
    &words[first as usize..]
}

/// Loads the files of these names, of which the first is at this place of the words.
fn load_all<S: Shelf>(
    alloc: Global,
    names: &[String],
    first: u32,
    shelf: &mut S,
) -> Result<Vec<Vec<u8>>, Status>
    ensures loaded { IfOk result (λ files. HaveAll (S.kept shelf.old) (map string_bytes names.now) (map (λ v. v.items) files.items)) }
    ensures failed { IfErr result (FailsToLoad (map string_bytes names.now) first (S.load_faults shelf.old) (S.load_faults shelf.new)) }
    ensures kept { S.kept shelf.new ≡ S.kept shelf.old }
    ensures loads { NeverFell (S.load_faults shelf.old) (S.load_faults shelf.new) }
    ensures stores { NeverFell (S.store_faults shelf.old) (S.store_faults shelf.new) }
{
    let mut files = Vec::new(alloc);
    for (place, name) in names.iter().enumerate() {
        match load(alloc, name.as_str(), first as usize + place, shelf) {
            Ok(bytes) => match files.push(bytes) {
                Ok(()) => {}
                Err(_) => return Err(Status::Memory),
            },
            Err(status) => return Err(status),
        }
    }
    Ok(files)
}

/// Loads the file of this name, which is at this place of the words.
fn load<S: Shelf>(alloc: Global, name: &str, place: usize, shelf: &mut S) -> Result<Vec<u8>, Status>
    ensures loaded { IfOk result (λ bytes. HasAt (S.kept shelf.old) name.now bytes.items) }
    ensures failed { IfErr result (FailsAt name.now place (S.load_faults shelf.old) (S.load_faults shelf.new)) }
    ensures kept { S.kept shelf.new ≡ S.kept shelf.old }
    ensures loads { NeverFell (S.load_faults shelf.old) (S.load_faults shelf.new) }
    ensures stores { NeverFell (S.store_faults shelf.old) (S.store_faults shelf.new) }
{
    match shelf.load(alloc, name) {
        Ok(bytes) => Ok(bytes),
        Err(ShelfFail::Failed) => Err(Status::ShelfFault {
            word: place_of(place),
        }),
        Err(ShelfFail::Memory) => Err(Status::Memory),
    }
}

/// Loads the class files of these names, of which the first is at this place of the words, infuses them and
/// runs the infusion.
fn go<S: Shelf, C: Console>(
    alloc: Global,
    names: &[String],
    first: u32,
    opts: Opts,
    shelf: &mut S,
    console: &mut C,
) -> Status
    requires names { AreNames (map string_bytes names.now) }
    requires sizes { HasSizes opts }
    ensures replied { (settings : List Setting) → AreOptions settings → opts ≡ opts_of settings → first ≡ class_place settings
        → Answers dialogue_of
        (MayReply (call (go_of settings (map string_bytes names.now)) (shelved S.kept S.load_faults S.store_faults shelf.old) (spoken C.left C.shown C.noted C.faults C.room console.old))
        (shelved S.kept S.load_faults S.store_faults shelf.new) (limits_in opts))
        (spoken C.left C.shown C.noted C.faults C.room console.old) (spoken C.left C.shown C.noted C.faults C.room console.new) result }
    ensures kept { S.kept shelf.new ≡ S.kept shelf.old }
    ensures loads { NeverFell (S.load_faults shelf.old) (S.load_faults shelf.new) }
    ensures stores { NeverFell (S.store_faults shelf.old) (S.store_faults shelf.new) }
{
    match load_all(alloc, names, first, shelf) {
        Ok(files) => run_classes(alloc, files.as_slice(), opts, console),
        Err(status) => status,
    }
}

/// Loads the infusion of this name, reads, checks and runs it.
fn run<S: Shelf, C: Console>(
    alloc: Global,
    name: &str,
    opts: Opts,
    shelf: &mut S,
    console: &mut C,
) -> Status
    requires name { IsName name.now }
    requires sizes { HasSizes opts }
    ensures replied { (settings : List Setting) → AreOptions settings → opts ≡ opts_of settings
        → Answers dialogue_of
        (MayReply (call (run_of name.now settings) (shelved S.kept S.load_faults S.store_faults shelf.old) (spoken C.left C.shown C.noted C.faults C.room console.old))
        (shelved S.kept S.load_faults S.store_faults shelf.new) (limits_in opts))
        (spoken C.left C.shown C.noted C.faults C.room console.old) (spoken C.left C.shown C.noted C.faults C.room console.new) result }
    ensures kept { S.kept shelf.new ≡ S.kept shelf.old }
    ensures loads { NeverFell (S.load_faults shelf.old) (S.load_faults shelf.new) }
    ensures stores { NeverFell (S.store_faults shelf.old) (S.store_faults shelf.new) }
{
    match load(alloc, name, 1, shelf) {
        Ok(bytes) => run_infusion(alloc, bytes.as_slice(), opts, console),
        Err(status) => status,
    }
}

/// Loads the class files of these names, infuses them, and stores the infusion at the name `out`.
fn infuse_to<S: Shelf>(alloc: Global, out: &str, names: &[String], shelf: &mut S) -> Status
    requires out { IsName out.now }
    requires names { AreNames (map string_bytes names.now) }
    ensures replied { (limits : Limits) → IsQuiet (λ console. MayReply (call (infuse_of out.now (map string_bytes names.now)) (shelved S.kept S.load_faults S.store_faults shelf.old) console)
        (shelved S.kept S.load_faults S.store_faults shelf.new) limits) result }
    ensures kept { ChangesOwn (infuse_of out.now (map string_bytes names.now)) (S.kept shelf.old) (S.kept shelf.new) }
    ensures loads { NeverFell (S.load_faults shelf.old) (S.load_faults shelf.new) }
    ensures stores { NeverFell (S.store_faults shelf.old) (S.store_faults shelf.new) }
{
    let files = match load_all(alloc, names, 2, shelf) {
        Ok(files) => files,
        Err(status) => return status,
    };
    match infusion_of(alloc, files.as_slice()) {
        Ok(infusion) => store(out, infusion.as_slice(), shelf),
        Err(why) => why,
    }
}

/// Stores the infusion at the name.
fn store<S: Shelf>(out: &str, infusion: &[u8], shelf: &mut S) -> Status
    ensures stored { IsStored out.now infusion.now (S.kept shelf.old) (S.kept shelf.new) (S.store_faults shelf.old) (S.store_faults shelf.new) result }
    ensures loads { NeverFell (S.load_faults shelf.old) (S.load_faults shelf.new) }
    ensures stores { NeverFell (S.store_faults shelf.old) (S.store_faults shelf.new) }
{
    match shelf.store(out, infusion) {
        Ok(()) => Status::Done,
        Err(ShelfFail::Failed) => Status::ShelfFault { word: 1 },
        Err(ShelfFail::Memory) => Status::Memory,
    }
}

/// The infusion of the class files, or the status of their refusal.
fn infusion_of(alloc: Global, files: &[Vec<u8>]) -> Result<Vec<u8>, Status>
    ensures ok { IfOk result (λ infusion. IsInfusionOf (map (λ v. v.items) files.now) infusion.items) }
    ensures err { IfErr result (IsRefusedStatus (map (λ v. v.items) files.now)) }
{
    accepted_sets_run();
    let image = match infuse(alloc, files) {
        Ok(image) => image,
        Err(refusal) => return Err(refused(refusal)),
    };
    match write_image(alloc, &image) {
        Ok(infusion) => Ok(infusion),
        Err(_) => Err(Status::Memory),
    }
}
