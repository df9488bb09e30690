//! The objects that a history placed, and which of them a word names.
#![tactic(auto)]

mod laws;
mod object;
mod slot;

pub use laws::{law_one_named, law_placed};
pub use object::{Object, object_named};
pub use slot::Slot;
