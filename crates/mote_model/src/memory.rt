use mote_stack::Region;

/// The memory of a mote, all of which is taken when the mote is made. How it stands for a state of the split machine is
/// in specs/Picture.antt.
#[derive(Debug, Drop)]
pub struct State {
    /// The frames.
    pub region: Region,
    /// The statics that are references: 0 for null.
    pub ref_statics: Vec<u16>,
    /// The cells of the other statics.
    pub cell_statics: Vec<u16>,
    /// How many collections there were; once at the greatest number it stays there.
    pub collections: u64,
}
