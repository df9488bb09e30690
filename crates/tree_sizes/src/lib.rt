//! How many nodes a tree of the grammar has.
#![tactic(auto)]

mod laws;

pub use laws::{law_depths, law_sizes};
