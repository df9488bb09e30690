//! What operators, conversions and casts do with operands, by their types and by what is known of them.
#![tactic(auto)]

mod calls;
mod casts;
mod changes;
mod choices;
mod constants;
mod conversions;
mod indexes;
mod kinds;
mod operators;
mod plans;

pub use calls::{Parameter, constant_type, fit, prints, taken_by, whole_target};
pub use casts::{known_cast, planned_cast};
pub use changes::{stepping_of, updating_of};
pub use choices::planned_choice;
pub use constants::{
    known_as, known_binary, known_comparison, known_conditional, known_logical, known_not,
    known_shift, known_unary,
};
pub use conversions::{conversion, is_null, to_whole};
pub use indexes::indexing_of;
pub use kinds::{
    CHAR, INT, LONG, SHORT, UNSIGNED_CHAR, UNSIGNED_INT, UNSIGNED_LONG, UNSIGNED_SHORT, VOID,
    element, has_size, is_aggregate, is_scalar, is_void_pointer, is_whole, number_of, promoted,
    sized_target, target, usual, whole_type, wrapped,
};
pub use operators::{operator_of, step_of};
pub use plans::planned;
