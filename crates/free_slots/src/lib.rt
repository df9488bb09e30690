//! Which slots of a region are free, and which of them comes next.
#![tactic(auto)]

mod slots;
#[cfg(test)]
mod tests;

pub use slots::{FreeSlots, Taken};
