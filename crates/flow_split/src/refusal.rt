/// Why a frame is not laid out.
#[derive(Clone, Copy, Debug, PartialEq, Eq)]
pub enum SplitRefusal {
    /// The frame of a method, by its position in its class, has so many cells, which are more than 32,767.
    FrameTooLarge { method: u16, cells: u32 },
    /// There was no memory.
    Memory,
}
