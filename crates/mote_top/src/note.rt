ghost use Rattle.std.specs.Prelude.{◌≡◌, ◌∷◌, [], ◌++◌, codes, decimal};
ghost use Rattle.dialogue.specs.Dialogue.{noting};
ghost use Rattle.host_face.specs.Talk.{Says};
ghost use Rattle.mote_top.specs.Status.{blank_number, line, cause_word, image_word as image_word_of, refusal_line, image_line, note_of};
ghost use Rattle.mote_top.specs.Words.{limits_in};

use crate::status::{ImageCause, ImageRefusal, Status};
use crate::words::Opts;
use host_face::{Console, ConsoleFailed};
use itoa::Buffer;
use jvm_model::{Cause, Refusal};

/// Notes each of the bytes.
fn note_all<C: Console>(console: &mut C, bytes: &[u8]) -> Result<(), ConsoleFailed>
    ensures said { Says C.left C.shown C.noted C.faults C.room console.old console.new (noting bytes.now) result }
    ensures left { C.left console.new ≡ C.left console.old }
{
    for byte in bytes {
        console.note(*byte)?;
    }
    Ok(())
}

/// Notes a blank and the number in decimal.
fn note_number<C: Console>(console: &mut C, number: u32) -> Result<(), ConsoleFailed>
    ensures said { Says C.left C.shown C.noted C.faults C.room console.old console.new (noting (32 ∷ decimal number)) result }
    ensures left { C.left console.new ≡ C.left console.old }
{
    let mut buffer = Buffer::new();
    note_all(console, b" ")?;
    note_all(console, buffer.format(number).as_bytes())
}

/// Notes a line: a word, and numbers with a blank before each.
fn note_line<C: Console>(console: &mut C, word: &[u8], numbers: &[u32]) -> Result<(), ConsoleFailed>
    ensures said { Says C.left C.shown C.noted C.faults C.room console.old console.new (noting (line word.now numbers.now)) result }
    ensures left { C.left console.new ≡ C.left console.old }
{
    note_all(console, word)?;
    for number in numbers {
        note_number(console, *number)?;
    }
    note_all(console, b"\n")
}

fn word_of(cause: Cause) -> &'static [u8]
    ensures { result.now ≡ cause_word cause }
{
    match cause {
        Cause::TooMany => b"toomany",
        Cause::TooLarge => b"toolarge",
        Cause::NotClass => b"notclass",
        Cause::Truncated => b"truncated",
        Cause::Version => b"version",
        Cause::BadPool => b"badpool",
        Cause::BadDescriptor => b"baddescriptor",
        Cause::BadShape => b"badshape",
        Cause::Trailing => b"trailing",
        Cause::Unsupported => b"unsupported",
        Cause::BadCode => b"badcode",
        Cause::Duplicate => b"duplicate",
        Cause::Reserved => b"reserved",
        Cause::MissingClass => b"missingclass",
        Cause::BadSuper => b"badsuper",
        Cause::Circular => b"circular",
        Cause::WideType => b"widetype",
        Cause::BadOverride => b"badoverride",
        Cause::MissingBody => b"missingbody",
        Cause::BadInitialiser => b"badinitialiser",
        Cause::Unresolved => b"unresolved",
        Cause::WrongKind => b"wrongkind",
        Cause::Denied => b"denied",
        Cause::NoMain => b"nomain",
        Cause::Unverified => b"unverified",
        Cause::Unbuilt => b"unbuilt",
        Cause::FrameTooLarge => b"frametoolarge",
        Cause::CodeTooLong => b"codetoolong",
        Cause::Memory => b"memory",
    }
}

fn image_word(cause: ImageCause) -> &'static [u8]
    ensures { result.now ≡ image_word_of cause }
{
    match cause {
        ImageCause::NotInfusion => b"notinfusion",
        ImageCause::FormVersion => b"formversion",
        ImageCause::Truncated => b"truncated",
        ImageCause::Trailing => b"trailing",
        ImageCause::BadTable => b"badtable",
        ImageCause::BadCode => b"badcode",
        ImageCause::BadTarget => b"badtarget",
        ImageCause::BadId => b"badid",
        ImageCause::BadDepth => b"baddepth",
        ImageCause::Crosses => b"crosses",
        ImageCause::Falls => b"falls",
        ImageCause::Unbuilt => b"unbuilt",
    }
}

/// Notes the line of a status, if it has one, of a call with these options.
pub fn note_status<C: Console>(
    console: &mut C,
    opts: Opts,
    status: &Status,
) -> Result<(), ConsoleFailed>
    ensures said { Says C.left C.shown C.noted C.faults C.room console.old console.new (noting (note_of (limits_in opts) status.now)) result }
    ensures left { C.left console.new ≡ C.left console.old }
{
    match status {
        Status::Done | Status::ConsoleFault | Status::Memory => Ok(()),
        Status::Uncaught { class } => note_uncaught(console, class.as_slice()),
        Status::Words { place } => note_line(console, b"words", &[*place]),
        Status::Refused(refusal) => note_refusal(console, *refusal),
        Status::Infusion(refusal) => note_image_refusal(console, *refusal),
        Status::Spent => note_line(console, b"spent", &[]),
        Status::HeapWanted { need, live } => {
            note_want(
                console,
                b"heap need",
                *need,
                b" live",
                *live,
                u32::from(opts.heap),
            )
        }
        Status::StackWanted { need, used } => {
            note_want(
                console,
                b"stack need",
                *need,
                b" used",
                *used,
                u32::from(opts.stack),
            )
        }
        Status::ShelfFault { word } => note_line(console, b"shelf", &[*word]),
        Status::Misfit { class, place } => note_line(
            console,
            b"misfit",
            &[u32::from(*class), u32::from(*place)],
        ),
    }
}

/// Notes the name of a class that was thrown, byte for byte.
fn note_uncaught<C: Console>(console: &mut C, class: &[u8]) -> Result<(), ConsoleFailed>
    ensures said { Says C.left C.shown C.noted C.faults C.room console.old console.new (noting (codes "uncaught " ++ (class.now ++ 10 ∷ []))) result }
    ensures left { C.left console.new ≡ C.left console.old }
{
    note_all(console, b"uncaught ")?;
    note_text(console, class)
}

/// Notes a text and byte 10.
fn note_text<C: Console>(console: &mut C, text: &[u8]) -> Result<(), ConsoleFailed>
    ensures said { Says C.left C.shown C.noted C.faults C.room console.old console.new (noting (text.now ++ 10 ∷ [])) result }
    ensures left { C.left console.new ≡ C.left console.old }
{
    note_all(console, text)?;
    note_all(console, b"\n")
}

/// Notes what was needed, what was in use, and the size of the memory, in cells.
fn note_want<C: Console>(
    console: &mut C,
    first: &[u8],
    need: u32,
    second: &[u8],
    used: u32,
    size: u32,
) -> Result<(), ConsoleFailed>
    ensures said { Says C.left C.shown C.noted C.faults C.room console.old console.new
        (noting ((first.now ++ blank_number need) ++ ((second.now ++ blank_number used) ++ line (codes " size") (size ∷ [])))) result }
    ensures left { C.left console.new ≡ C.left console.old }
{
    note_named(console, first, need)?;
    note_use(console, second, used, size)
}

/// Notes what was in use, and the size of the memory, in cells.
fn note_use<C: Console>(
    console: &mut C,
    word: &[u8],
    used: u32,
    size: u32,
) -> Result<(), ConsoleFailed>
    ensures said { Says C.left C.shown C.noted C.faults C.room console.old console.new
        (noting ((word.now ++ blank_number used) ++ line (codes " size") (size ∷ []))) result }
    ensures left { C.left console.new ≡ C.left console.old }
{
    note_named(console, word, used)?;
    note_line(console, b" size", &[size])
}

/// Notes a word, a blank and a number.
fn note_named<C: Console>(console: &mut C, word: &[u8], number: u32) -> Result<(), ConsoleFailed>
    ensures said { Says C.left C.shown C.noted C.faults C.room console.old console.new (noting (word.now ++ blank_number number)) result }
    ensures left { C.left console.new ≡ C.left console.old }
{
    note_all(console, word)?;
    note_number(console, number)
}

fn note_refusal<C: Console>(console: &mut C, refusal: Refusal) -> Result<(), ConsoleFailed>
    ensures said { Says C.left C.shown C.noted C.faults C.room console.old console.new (noting (refusal_line refusal)) result }
    ensures left { C.left console.new ≡ C.left console.old }
{
    let Refusal {
        cause,
        file,
        member,
        pc,
        value,
    } = refusal;
    note_all(console, b"refused ")?;
    note_line(console, word_of(cause), &[file, member, pc, value])
}

fn note_image_refusal<C: Console>(
    console: &mut C,
    refusal: ImageRefusal,
) -> Result<(), ConsoleFailed>
    ensures said { Says C.left C.shown C.noted C.faults C.room console.old console.new (noting (image_line refusal)) result }
    ensures left { C.left console.new ≡ C.left console.old }
{
    let ImageRefusal { cause, a, b } = refusal;
    note_all(console, b"infusion ")?;
    note_line(console, image_word(cause), &[a, b])
}
