//! Parts of lists.

/// The places from `start` on, before `end`.
#[derive(Clone, Copy, Debug)]
pub struct Span {
    pub start: usize,
    pub end: usize,
}
