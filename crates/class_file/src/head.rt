/// What stands before the attributes of a field or a method (JVMS 4.5, 4.6).
#[derive(Clone, Copy, Debug)]
pub(crate) struct Head {
    pub(crate) flags: u16,
    pub(crate) name: u16,
    pub(crate) descriptor: u16,
}
