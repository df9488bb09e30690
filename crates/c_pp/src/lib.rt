//! Directives and macros: the preprocessor (C11 6.10).
#![tactic(auto)]

mod directive;
mod error;
mod expansion;
mod marks;
mod numbers;
mod output;
mod replacement;
mod span;
mod table;

pub use error::PpError;
pub use expansion::{expand, law_expanded};
