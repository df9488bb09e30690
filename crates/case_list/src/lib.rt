//! Lists of cases, one a line, and the texts that they are about.
#![tactic(auto)]

mod line;
mod lines;
mod pattern;

pub use line::{Case, case_of, number, numbers};
pub use lines::{append_ends, append_lines};
pub use pattern::{made_text, text_of};
