//! The form of C that runs today: from the syntax tree of a unit to the typed tree of its program.
#![tactic(auto)]

mod actions;
mod declarations;
mod error;
mod numbers;
mod program;
mod statements;

pub use error::FormError;
pub use program::{law_form, program_of};
