//! The names and the strings of a text, each once, and the number that each token has among them.
#![tactic(auto)]

mod gathering;
mod laws;
mod numbering;
mod table;
mod texts;

pub use gathering::{TypeNameTexts, texts_with_typedefs, token_texts};
pub use laws::law_texts;
pub use texts::TokenTexts;
