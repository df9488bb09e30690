//! What a region answers to each call of the typed heap, from its slots and the headers of their objects.
#![tactic(auto)]

mod adds;
mod answering;
mod checks;
mod frees;
mod loads;
mod naming;
mod placement;
mod places;
mod stores;

pub use adds::add;
pub use answering::answer;
pub use checks::check;
pub use frees::free;
pub use loads::load;
pub use placement::allocate;
pub use stores::store;
