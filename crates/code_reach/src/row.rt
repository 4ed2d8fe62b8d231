/// A row of an exception table (JVMS 4.7.3), without the class that it catches: `start` to `end`, without
/// `end`, in pcs, and the pc of the handler. A row whose `end` is not above its `start` covers nothing.
#[derive(Clone, Copy, Debug, PartialEq, Eq)]
pub struct Row {
    pub start: u32,
    pub end: u32,
    pub target: u32,
}
