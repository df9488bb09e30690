//! The static rules of the C profile: what an expression, a declaration and a statement is in the typed tree, or the first
//! fault of a text. The rules are said in `specs/`; here are the types that they are said of.
#![tactic(auto)]

mod faults;
mod judged;
mod plans;
mod states;
mod symbols;

pub use faults::{CheckError, CheckKind, Feature};
pub use judged::{Arguments, Judged, Known, Operand, Tree};
pub use plans::{Casting, Change, Choice, Indexing, Joint, Plan, Seen, Stepping, Updating};
pub use states::{DeclaredFunction, GlobalSoFar, Made, State, Symbol, TagSymbol, Where};
pub use symbols::BuiltIn;
