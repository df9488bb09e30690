//! What a rule's function answers, and the types that rules add.
#![tactic(auto)]

mod adding;
mod faults;

pub use adding::{
    MAX_TYPES, array_type, has_room_beside, in_table, open_array_type, pointer_to, pointer_type,
};
pub use faults::{fault, out_of_memory, refused};
