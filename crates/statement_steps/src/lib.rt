//! What the rules of statements do (C11 6.8), a rule at a time, once the parts of a statement were read. No tree of the
//! syntax is read here.
#![tactic(auto)]

mod blocks;
mod boxes;
mod cases;
mod jumps;
mod labels;
mod loops;
mod returns;
mod selections;
mod surroundings;

pub use blocks::{begin_block, end_block, end_for_declaration};
pub use cases::{case_label, default_label, misplaced_label};
pub use jumps::{break_out, continue_loop};
pub use labels::Labels;
pub use loops::{do_loop, for_loop, while_loop};
pub use returns::{return_nothing, return_value};
pub use selections::{if_else, if_then, switch_value};
pub use surroundings::{deeper, in_a_loop, in_a_switch, in_function_of};
