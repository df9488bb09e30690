//! The types of C as a table with numbers (C11 6.2.5).
#![tactic(auto)]

mod fields;
mod kinds;
mod laws;
mod rows;
mod sent;
mod table;

pub use byte_texts::Text;
pub use kinds::{CType, Field, Member, TypeError, TypeNo};
pub use laws::{law_later, law_table};
pub use table::TypeTable;
