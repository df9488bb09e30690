//! The parser of expressions (C11 6.5), over parsers of what is nested in them.
#![tactic(auto)]

mod expressions;
mod growing;
mod heads;
mod inner;
mod phrases;
mod tails;

pub use inner::Inner;
