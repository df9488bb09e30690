//! Which typed trees are well typed: what holds of every program that the static rules answer, without their order and
//! without names.
#![tactic(auto)]

mod laws;
mod signatures;

pub use laws::law_grows;
pub use signatures::Signature;
