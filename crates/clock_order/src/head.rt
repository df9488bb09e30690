/// The next entry of a part: its stamp and its region, by which heads are ordered, and where it stands.
#[derive(Clone, Copy, PartialEq, Eq, PartialOrd, Ord)]
pub(crate) struct Head {
    pub stamp: u64,
    pub region: u32,
    pub part: usize,
    pub at: u64,
}
