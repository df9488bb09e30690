//! What an expression is found to be, given what its parts were found to be (C11 6.5): a function for each rule.
#![tactic(auto)]

mod adding;
mod literals;
mod names;
mod sizes;

pub use adding::kind_by_now;
pub use literals::{string, string_type};
pub use names::named;
pub use sizes::sized;
