//! The slots of one region with the objects in them, in the cells of a store.
#![tactic(auto)]

mod facts;
mod placing;
mod slots;

pub use facts::Facts;
pub use slots::{Slots, law_headers, law_slots};
