//! The layout table: of which types each complete type is made where, with an array's inside standing once.
#![tactic(auto)]

mod counting;
mod growing;
mod known;
mod making;
mod matching;
mod near;
mod ordering;
mod search;
mod sent;
mod stored;
mod table;

pub use table::{Table, TableError};
