//! The typed tree of a program: what the static rules make of a syntax tree, with all names and conversions resolved.
#![tactic(auto)]

mod counts;
mod limits;
mod lists;
mod operators;
mod program;
mod statements;
mod values;

pub use limits::{MAX_FUNCTION_SIZE, MAX_INITIALISED_BYTES, MAX_NODES, MAX_PARAMETERS};
pub use lists::{Functions, Globals, Literals, Names};
pub use operators::{Comparison, Fixity, LogicalOperator, Operator, Step, UnaryOperator, Written};
pub use program::{Function, GlobalVariable, Literal, Meaning, Named, Program, Variable};
pub use statements::{Block, ForStart, Initial, Statement};
pub use values::{At, Place, Value};
