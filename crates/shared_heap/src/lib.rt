//! The heaps of the 27 regions, shared by threads, each under the lock of its region.
#![tactic(auto)]

mod heap;
mod region;
mod regions;
mod rules;
mod sent;

pub use heap::SharedHeap;
