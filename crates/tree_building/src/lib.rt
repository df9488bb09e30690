//! The nodes of the typed tree that the static rules build, once the types have decided.
#![tactic(auto)]

mod boxes;
mod calls;
mod casts;
mod changes;
mod lists;
mod operands;
mod operators;
mod places;
mod plans;
mod primaries;

pub use calls::{call, comma, fetch_added, given_node, print, promoted_argument};
pub use casts::cast;
pub use changes::{copied, stepped, stored, updated};
pub use lists::{one, three, two};
pub use operands::{changed, decayed, read, seen, value};
pub use operators::{chosen, negated, unary};
pub use places::{address, arrow, dereferenced, indexed, member};
pub use plans::built;
pub use primaries::{constant, global, literal, null, variable};
