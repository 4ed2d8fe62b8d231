//! Runs class files and infusions on the mote machine.

ghost use Rattle.std.specs.Prelude.{◌≡◌, ◌≤◌, [], map, vec_capacity, length};
ghost use Rattle.image_form.specs.Grammar.{IsImage};
ghost use Rattle.jvm_model.specs.declared.refusal.Cause.TheVariants.{Memory as NoMemory};
ghost use Rattle.image_form.specs.declared.refusal.FormRefusal.TheVariants.{Memory as NoFormMemory};
ghost use Rattle.image_check.specs.declared.refusal.CheckCause.TheVariants.{Memory as NoCheckMemory};
ghost use Rattle.mote_top.specs.Endings.{split_status, form_refusal as form_refusal_of, check_cause as check_cause_of, check_refusal as check_refusal_of};
ghost use Rattle.mote_top.specs.Words.{HasSizes, limits_in};
ghost use Rattle.mote_top.specs.Call.{spoken};
ghost use Rattle.mote_top.specs.Reply.{RunsImage, SetReplies, InfusionReplies, dialogue_of};
ghost use Rattle.mote_top.specs.Answer.{Answers};

use crate::status::{ImageCause, ImageRefusal, Status};
use crate::words::Opts;
use host_face::Console;
use image_check::{CheckCause, CheckRefusal, Checked, check};
use image_form::{FormRefusal, read_image};
use infuse_link::infuse;
use item_list::Items;
use jvm_model::{Cause, Refusal};
use mote_core::Mote;
use mote_model::Ending;
use set_outcome::accepted_sets_run;
use std::alloc::Global;

/// No name of a class has more bytes.
const MOST_NAME: usize = 65_535;

/// Infuses the class files, and runs the infusion; or says why they are refused. The image is checked, so the
/// check answers it unless there is no memory.
pub(crate) fn run_classes<C: Console>(
    alloc: Global,
    files: &[Vec<u8>],
    opts: Opts,
    console: &mut C,
) -> Status
    requires sizes { HasSizes opts }
    ensures { Answers dialogue_of (SetReplies (map (λ v. v.items) files.now) (limits_in opts) (C.left console.old))
        (spoken C.left C.shown C.noted C.faults C.room console.old) (spoken C.left C.shown C.noted C.faults C.room console.new) result }
{
    accepted_sets_run();
    let image = match infuse(alloc, files) {
        Ok(image) => image,
        Err(refusal) => return refused(refusal),
    };
    match check(alloc, image) {
        Ok(checked) => run_checked(alloc, checked, opts, console),
        Err((_image, refusal)) => check_refused(refusal),
    }
}

/// The status of a refusal of class files.
pub(crate) fn refused(refusal: Refusal) -> Status
    ensures memory { refusal.cause ≡ NoMemory → result ≡ Status.Memory }
    ensures other { ¬ (refusal.cause ≡ NoMemory) → result ≡ Status.Refused refusal }
{
    if refusal.cause == Cause::Memory {
        Status::Memory
    } else {
        Status::Refused(refusal)
    }
}

/// Runs the infusion that the bytes are, or says why they are none.
pub(crate) fn run_infusion<C: Console>(
    alloc: Global,
    bytes: &[u8],
    opts: Opts,
    console: &mut C,
) -> Status
    requires sizes { HasSizes opts }
    ensures { Answers dialogue_of (InfusionReplies bytes.now (limits_in opts) (C.left console.old))
        (spoken C.left C.shown C.noted C.faults C.room console.old) (spoken C.left C.shown C.noted C.faults C.room console.new) result }
{
    let image = match read_image(alloc, bytes) {
        Ok(image) => image,
        Err(refusal) => return form_refused(refusal),
    };
    match check(alloc, image) {
        Ok(checked) => run_checked(alloc, checked, opts, console),
        Err((_image, refusal)) => check_refused(refusal),
    }
}

/// The status of a refusal of an infusion's form.
fn form_refused(refusal: FormRefusal) -> Status
    ensures memory { refusal ≡ NoFormMemory → result ≡ Status.Memory }
    ensures other { ¬ (refusal ≡ NoFormMemory) → result ≡ Status.Infusion (form_refusal_of refusal) }
{
    if refusal == FormRefusal::Memory {
        Status::Memory
    } else {
        Status::Infusion(form_refusal(refusal))
    }
}

/// The status of a refusal of an image's check.
fn check_refused(refusal: CheckRefusal) -> Status
    ensures memory { refusal.cause ≡ NoCheckMemory → result ≡ Status.Memory }
    ensures other { ¬ (refusal.cause ≡ NoCheckMemory) → result ≡ Status.Infusion (check_refusal_of refusal) }
{
    if refusal.cause == CheckCause::Memory {
        Status::Memory
    } else {
        Status::Infusion(check_refusal(refusal))
    }
}

/// Runs a checked image. All memory is taken before the run.
fn run_checked<C: Console>(alloc: Global, checked: Checked, opts: Opts, console: &mut C) -> Status
    requires sizes { HasSizes opts }
    ensures { Answers dialogue_of (RunsImage checked (limits_in opts) (C.left console.old))
        (spoken C.left C.shown C.noted C.faults C.room console.old) (spoken C.left C.shown C.noted C.faults C.room console.new) result }
{
    let Ok(room) = Vec::with_capacity(alloc, MOST_NAME) else {
        return Status::Memory;
    };
    let Ok(mut mote) = Mote::new(alloc, checked, opts.heap, opts.stack) else {
        return Status::Memory;
    };
    let ending = mote.run(console, opts.ticks);
    status_of(&mote, room, ending)
}

/// The status of an ending; a class's name is kept in the room.
fn status_of(mote: &Mote, room: Vec<u8>, ending: Ending) -> Status
    requires image { IsImage mote.now.image }
    requires room { 65535 ≤ vec_capacity room }
    requires empty { room.items ≡ [] }
    ensures { result ≡ split_status mote.now.image ending }
{
    match ending {
        Ending::Done => Status::Done,
        Ending::Uncaught { class } => Status::Uncaught {
            class: kept(room, mote.name_of(class)),
        },
        Ending::Spent => Status::Spent,
        Ending::HeapWanted { need, live } => Status::HeapWanted { need, live },
        Ending::StackWanted { need, used } => Status::StackWanted { need, used },
        Ending::ConsoleFault => Status::ConsoleFault,
        Ending::Misfit { class, place } => Status::Misfit { class, place },
    }
}

/// The name, kept in the room.
fn kept(mut room: Vec<u8>, name: &[u8]) -> Items<u8>
    requires fits { length name.now ≤ vec_capacity room }
    requires empty { room.items ≡ [] }
    ensures { result ≡ name.now }
{
    if room.extend_from_slice(name).is_err() {
        unreachable!();
    }
    Items::from_vec(room)
}

/// The refusal of a form, which is no want of memory.
fn form_refusal(refusal: FormRefusal) -> ImageRefusal
    ensures { result ≡ form_refusal_of refusal }
{
    let (cause, a, b) = match refusal {
        FormRefusal::NotInfusion => (ImageCause::NotInfusion, 0, 0),
        FormRefusal::FormVersion { version } => (ImageCause::FormVersion, u32::from(version), 0),
        FormRefusal::Truncated => (ImageCause::Truncated, 0, 0),
        FormRefusal::TrailingBytes => (ImageCause::Trailing, 0, 0),
        FormRefusal::BadTable { table, index } => {
            (ImageCause::BadTable, u32::from(table), u32::from(index))
        }
        FormRefusal::Memory => (ImageCause::Unbuilt, 0, 0),
    };
    ImageRefusal { cause, a, b }
}

/// The cause of a check, which is no want of memory.
fn check_cause(cause: CheckCause) -> ImageCause
    ensures { result ≡ check_cause_of cause }
{
    match cause {
        CheckCause::BadCode => ImageCause::BadCode,
        CheckCause::BadTarget => ImageCause::BadTarget,
        CheckCause::BadId => ImageCause::BadId,
        CheckCause::BadDepth => ImageCause::BadDepth,
        CheckCause::Crosses => ImageCause::Crosses,
        CheckCause::Falls => ImageCause::Falls,
        CheckCause::Unbuilt | CheckCause::Memory => ImageCause::Unbuilt,
    }
}

/// The refusal of a check: the method and the place in its code.
fn check_refusal(refusal: CheckRefusal) -> ImageRefusal
    ensures { result ≡ check_refusal_of refusal }
{
    ImageRefusal {
        cause: check_cause(refusal.cause),
        a: u32::from(refusal.method),
        b: u32::from(refusal.pc),
    }
}
