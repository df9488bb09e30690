//! The heap of one region over its slots: objects with their types and bytes, and the calls on them.
#![tactic(auto)]

mod heap;
mod sent;

pub use heap::{RegionHeap, law_headers, law_pieces, law_stands};
