//! The calls and replies of the typed heap, its definitions, and their laws.
#![tactic(auto)]

mod access;
mod calls;
mod forms;
mod history;
mod history_laws;
mod laws;
mod objects;
mod row;
mod segment;
mod sent;

pub use access::{low_bytes, sign_extension, width_of};
pub use calls::{AccessKind, Call, Entry, Reach, Reply, ReportKind, Value};
pub use forms::{fits, region_for, suits};
pub use history::{Entries, History};
pub use history_laws::{law_extension, law_makers, law_pieces, law_replies, law_restrictions};
pub use laws::{law_accesses_inside, law_apart, law_checks, law_found_preferred};
pub use objects::{MAX_OBJECTS, offset_of};
