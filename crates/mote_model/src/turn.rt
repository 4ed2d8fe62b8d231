use crate::ending::Ending;

/// What a step of the machine answers.
#[derive(Clone, Copy, Debug, PartialEq, Eq)]
pub enum Turn {
    /// The run goes on.
    On,
    /// The machine throws an object of this type, which is still to be made: nothing is changed.
    Throws { class: u16 },
    /// The run ends so.
    Ends(Ending),
}
