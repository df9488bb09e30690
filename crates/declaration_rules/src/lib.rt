//! The static rules of declarations, initialisers, statements and whole texts, over those of expressions: definitions, the
//! types that they share with code, and a law on them.
#![tactic(auto)]

mod declarations;
mod laws;
mod parts;
mod specifiers;
mod statements;
mod stores;

pub use declarations::Introduced;
pub use laws::law_answers;
pub use parts::{Around, DeclaredName, ParameterList, Part};
pub use specifiers::{Opened, Setting};
pub use statements::Inside;
pub use stores::{Step, Unfit};
