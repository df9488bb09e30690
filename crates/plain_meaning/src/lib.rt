//! The small typed tree, and what a program means.
#![tactic(auto)]

mod laws;
mod names;
mod record;
mod scalar;
mod tree;

pub use byte_texts::Text;
pub use laws::{
    law_nothing_lost, law_prefix, law_reported, law_spent, law_turns_looked_at, law_wants,
};
pub use names::{NameError, find_entry};
pub use record::{Ending, Record, Report, Setting};
pub use scalar::{CheckedPointer, Scalar};
pub use tree::{Expression, Function, Operator, Pointer, Program, Statement, Target};
