//! The layout of objects: of which types an object is made where, and which bounds a pointer into it has.
#![tactic(auto)]

mod laws;
mod object_runs;
mod opening;
mod preference;

pub use laws::{
    law_inside, law_offset_within, law_preferred, law_strictly_inside, law_well_defined,
};
pub use object_runs::{Run, runs};
pub use preference::{Bounds, Match, consider, preferred};
