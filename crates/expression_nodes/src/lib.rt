//! What the operators of expressions do, and the nodes of expressions from their parts (C11 6.5).
#![tactic(auto)]

mod levels;
mod nodes;
mod operators;
mod tails;

pub use levels::{binary_level, operand_level, right_operand_level, tightness};
pub use nodes::{cast, parentheses, prefix, size_of, size_of_type};
pub use operators::{growth, growth_level, prefix_of};
pub use tails::{Tail, join};
