//! The walk over the typed tree, which runs a program.
#![tactic(auto)]

mod calls;
mod expressions;
mod heaps;
mod operators;
mod pointers;
mod reports;
mod running;
mod statements;
mod stop;
mod variables;
mod walk;

pub use running::run;
