//! The type, and what it has in use.

ghost use Rattle.std.specs.Prelude.{◌≡◌, ◌<◌, ◌≤◌, [], All, IfOk, length};
ghost use Rattle.mote_stack.specs.Frames.{IsStack, cells_in_use};

use std::alloc::{AllocError, Global};
use std::marker::Model;

/// Want of memory.
pub type Memory = AllocError;

/// A frame that does not fit: the cells that it needs, and the cells in use.
#[derive(Clone, Copy, Debug, PartialEq, Eq)]
pub struct StackWanted {
    pub need: u32,
    pub used: u32,
}

/// Activation frames in one memory of cells.
#[derive(Debug, Drop)]
pub struct Region {
    /// The memory: for each frame its body, and above it a header of four cells.
    pub(crate) cells: Vec<u16>,
    /// The body cells of each method.
    pub(crate) bodies: Vec<u16>,
    /// The cells in use.
    pub(crate) used: u16,
    /// The number of frames.
    pub(crate) count: u16,
    /// The place of the youngest frame's header; 0 without a frame.
    pub(crate) youngest: u16,
}

impl Model for Region {
    ghost use Rattle.mote_stack.specs.Frames.{Stack};

    ghost Value = { Stack };

    ghost use Rattle.mote_stack.specs.Layout.{stack_of, IsRegion};

    ghost view = { stack_of };

    ghost invariant = { IsRegion };
}

impl Region {
    /// A memory of so many cells without a frame, for methods with these body cells.
    pub fn new(alloc: Global, cells: u16, bodies: Vec<u16>) -> Result<Region, Memory>
        requires large { 64 ≤ cells }
        requires small { cells ≤ 32767 }
        requires bodies { All (λ body. body ≤ 32763) bodies.items }
        ensures { IfOk result (λ region. region ≡ record { size = cells; bodies = bodies.items; frames = [] }) }
    {
        let cells = vec![in alloc; 0; usize::from(cells)]?;
        Ok(Region {
            cells,
            bodies,
            used: 0,
            count: 0,
            youngest: 0,
        })
    }

    /// The number of frames.
    pub fn frame_count(&self) -> u16
        ensures value { result ≡ length self.now.frames }
        ensures holds { IsStack self.now }
    {
        self.count
    }

    /// The cells in use.
    pub fn used(&self) -> u32
        ensures { result ≡ cells_in_use self.now }
    {
        u32::from(self.used)
    }
}
