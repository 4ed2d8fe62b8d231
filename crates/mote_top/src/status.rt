ghost use Rattle.std.specs.Prelude.{◌≡◌};
ghost use Rattle.mote_top.specs.Status.{code_of, has_note};

use item_list::Items;
use jvm_model::Refusal;

/// Why the bytes of an infusion do not run: their form is refused, or the check of their image.
#[derive(Clone, Copy, Debug, PartialEq, Eq)]
pub enum ImageCause {
    NotInfusion,
    FormVersion,
    Truncated,
    Trailing,
    BadTable,
    BadCode,
    BadTarget,
    BadId,
    BadDepth,
    Crosses,
    Falls,
    Unbuilt,
}

/// A cause with the numbers that its note prints: the version for `FormVersion`, table and index for
/// `BadTable`, the method's id and the place in its code in bytes for a cause of the check, else 0.
#[derive(Clone, Copy, Debug, PartialEq, Eq)]
pub struct ImageRefusal {
    pub cause: ImageCause,
    pub a: u32,
    pub b: u32,
}

/// How a call of the program ended. Each status has a code, and most have a note line.
#[derive(Debug, Drop)]
pub enum Status {
    /// The oldest frame, which is main's, returned, or an infusion was stored.
    Done,
    /// A throw had no handler in any frame: `class` is the name of the thrown object's class.
    Uncaught { class: Items<u8> },
    /// The words are no command: `place` is the first place at which no command goes on as they do,
    /// or the number of words where all of them begin a command. A place beyond the field is its greatest
    /// number.
    Words { place: u32 },
    /// The set of class files is not accepted.
    Refused(Refusal),
    /// The bytes are no infusion that runs.
    Infusion(ImageRefusal),
    /// The next tick would have exceeded the budget.
    Spent,
    /// An object did not fit the heap: the cells that it needs, and those of live objects.
    HeapWanted { need: u32, live: u32 },
    /// A frame did not fit the stack: the cells that it needs, and those of all frames.
    StackWanted { need: u32, used: u32 },
    /// A call on the console failed.
    ConsoleFault,
    /// A load or the store failed: `word` is the place of the name among the words, or the field's greatest
    /// number where that is beyond.
    ShelfFault { word: u32 },
    /// An object lacked a place.
    Misfit { class: u16, place: u16 },
    /// There was no memory. Nothing was shown or noted.
    Memory,
}

impl Status {
    /// The status that the process ends with.
    pub fn code(&self) -> u8
        ensures { result ≡ code_of self.now }
    {
        match self {
            Status::Done => 0,
            Status::Uncaught { .. } => 1,
            Status::Words { .. } => 2,
            Status::Refused(_) => 3,
            Status::Infusion(_) => 4,
            Status::Spent => 5,
            Status::HeapWanted { .. } => 6,
            Status::StackWanted { .. } => 7,
            Status::ConsoleFault => 8,
            Status::ShelfFault { .. } => 9,
            Status::Misfit { .. } => 10,
            Status::Memory => 11,
        }
    }

    /// The status has a note line.
    pub(crate) fn has_note(&self) -> bool
        ensures { result ≡ has_note self.now }
    {
        !matches!(self, Status::Done | Status::ConsoleFault | Status::Memory)
    }
}
