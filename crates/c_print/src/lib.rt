//! The formats of printf, and the bytes that number parts print.
#![tactic(auto)]

mod built;
mod error;
mod formats;
mod laws;
mod machine;
mod numbers;
mod parts;
#[cfg(test)]
mod tests;

pub use error::FormatError;
pub use formats::parts_of;
pub use laws::law_formats;
pub use numbers::{print_part, print_text};
pub use parts::{Flag, Letter, Part};
