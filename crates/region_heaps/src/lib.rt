//! The heaps of the 27 regions on one thread, with the history of the calls that were made on them.
#![tactic(auto)]

mod heaps;
mod numbers;
mod regions;
mod sent;

pub use heaps::{RegionHeaps, law_history};
