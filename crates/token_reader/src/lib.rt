//! A reader of the tokens of a text, with the names that are in scope where it stands, and what parsers over it answer.
#![tactic(auto)]

mod error;
mod found;
mod kinds;
mod parameter_names;
mod reader;
mod refused;
mod scope;

pub use error::ParseError;
pub use found::{FoundDeclarator, FoundExpression, FoundSpecs};
pub use parameter_names::ParameterNames;
pub use reader::Reader;
pub use refused::refused_at;
