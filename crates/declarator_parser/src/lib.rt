//! The parser of declaration specifiers and declarators (C11 6.7), over parsers of what is nested in them.
#![tactic(auto)]

mod declarators;
mod declaring;
mod enumerators;
mod leads;
mod members;
mod parameters;
mod specifiers;
mod type_words;
mod wrong_words;

pub use declaring::Declaring;
pub use type_words::spelled_type;
