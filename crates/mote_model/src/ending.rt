/// How a run on the mote machine ended.
#[derive(Clone, Copy, Debug, PartialEq, Eq)]
pub enum Ending {
    /// The oldest frame, which is main's, returned.
    Done,
    /// An object of this type was thrown, and no frame had a handler: `class` is a type id.
    Uncaught { class: u16 },
    /// The next tick would have exceeded the budget.
    Spent,
    /// An object did not fit the heap: the cells that it needs, and those of live objects.
    HeapWanted { need: u32, live: u32 },
    /// A frame did not fit the stack: the cells that it needs, and those of all frames.
    StackWanted { need: u32, used: u32 },
    /// A call on the console failed.
    ConsoleFault,
    /// An object of this type lacked a place.
    Misfit { class: u16, place: u16 },
}
