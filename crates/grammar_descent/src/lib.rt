//! Reading by descent, as functions on lists of tokens, and that it finds what the grammar derives.
#![tactic(auto)]

mod growing;
mod laws;

pub use growing::Growth;
pub use laws::{law_derivation, law_readers};
