//! What the rules of initialisers do (C11 6.7.9), a rule at a time, once an expression of one was read. No tree of the
//! syntax is read here.
#![tactic(auto)]

mod braces;
mod fits;
mod found;
mod objects;
mod parts;
mod placing;
mod stored;
mod stores;
mod strings;

pub use fits::{copied, is_character, not_an_array, scalar};
pub use found::Found;
pub use objects::InitialisedObject;
pub use parts::{element_of, kind_behind, part_of, takes_braces};
pub use placing::placed;
pub use stores::Store;
pub use strings::{counted_string, string_bytes};
