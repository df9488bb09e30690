//! The words of the command line: what they ask for, or the first of them that is bad.
#![tactic(auto)]

mod build;
mod command;
mod error;
mod judge;
mod laws;
mod numbers;
mod options;
mod schedule;
mod values;

pub use build::read_words;
pub use command::{Command, RunWords};
pub use error::WordError;
pub use laws::{law_watches, law_words};
pub use values::watch_place;
