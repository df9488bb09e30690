//! What the static rules answer for an expression is well typed.
#![tactic(auto)]

mod laws;

pub use laws::law_operators;
