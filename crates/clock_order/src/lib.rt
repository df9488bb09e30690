//! One order for what several regions and callers did: Lamport's clocks.
#![tactic(auto)]

mod clock;
mod head;
mod merging;

pub use clock::stamp;
pub use merging::merge;

#[cfg(test)]
mod tests;
