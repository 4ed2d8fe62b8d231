//! What is known before the instructions of a body.

use type_table::{FrameId, Store};

/// A frame that is known before an instruction, and the last round that changed it.
#[derive(Clone, Copy, Debug)]
pub(crate) struct Known {
    pub(crate) frame: FrameId,
    pub(crate) round: u32,
}

/// The frames that are known so far, by the positions of their instructions.
#[derive(Debug, Drop)]
pub(crate) struct Frames {
    pub(crate) store: Store,
    pub(crate) known: Vec<Option<Known>>,
}

/// A frame that is sent to the instruction at a position.
#[derive(Clone, Copy, Debug)]
pub(crate) struct Arriving {
    pub(crate) position: usize,
    pub(crate) frame: FrameId,
}

/// What a round finds beside what is known after it: the lowest pc at which it fails, if it does, and the positions
/// that it changed.
#[derive(Debug, Drop)]
pub(crate) struct Step {
    pub(crate) failing: Option<u32>,
    pub(crate) wave: Vec<usize>,
}
