//! The lines that tell how a run ended.
#![tactic(auto)]

mod endings;
mod pointer;
mod report;
mod type_name;

pub use endings::ending_lines;
