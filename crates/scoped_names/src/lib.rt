//! Names that were declared one after another, and the last place of each.
#![tactic(auto)]

mod names;
mod places;

pub use names::Names;
