//! What stands in a slot before its object, and the words of pointers.
#![tactic(auto)]

mod header;
#[cfg(test)]
mod tests;
mod value;
mod word;

pub use header::{Header, law_headers, law_read};
pub use value::Value;
pub use word::{PtrWord, law_words};
