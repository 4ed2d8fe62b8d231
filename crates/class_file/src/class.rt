use item_list::Items;

/// What stands between the pool and the fields (JVMS 4.1).
#[derive(Debug, Drop)]
pub(crate) struct ClassHead {
    pub(crate) flags: u16,
    pub(crate) this_class: u16,
    pub(crate) super_class: u16,
    pub(crate) interfaces: Items<u16>,
}
