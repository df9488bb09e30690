//! A lock for each region of a shared heap, under one rule: what each pass made stands in the values that the locks
//! keep.
#![tactic(auto)]

mod about;
mod ends;
mod gate;
mod kept;
mod locks;
mod pass;
mod plays;
mod sent;
mod view;
mod whole;

pub use gate::{Gate, OpenGate};
pub use kept::Kept;
pub use locks::Locks;
pub use pass::Pass;
