//! What names mean that were declared one after another, where a scope may end.
#![tactic(auto)]

mod meanings;

pub use meanings::Meanings;
