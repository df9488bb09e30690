//! The parser: from tokens to the tree that the C grammar gives them.
#![tactic(auto)]

mod declarations;
mod initialisers;
mod phrases;
mod refused;
mod statements;
mod units;

pub use c_grammar::{TypeName, Unit};
pub use token_reader::ParseError;
pub use units::{parse, parse_type_name};
