//! The small parts of the form that runs: variables in scope, types, pointers, and the format that prints.
#![tactic(auto)]

mod formats;
mod pointers;
mod reserved;
mod scope;
mod sort;
mod types;

pub use formats::is_format;
pub use pointers::{cast, lone_name, malloc, pointer};
pub use reserved::{is_free, is_printf, is_reserved};
pub use scope::Scope;
pub use sort::Sort;
pub use types::{after_star, declared_name, is_void, only, target};
