//! What declarations of objects and functions do with the state, a rule at a time: no tree is read here.
#![tactic(auto)]

mod agreement;
mod closing;
mod definitions;
mod functions;
mod globals;
mod numbered;
mod variables;

pub use agreement::{
    composite, disagreement, is_no_function, is_no_global, same_element, same_object,
    same_signature,
};
pub use closing::{close_declaration, with_bytes};
pub use definitions::{begin_definition, end_definition, into_own_list, with_parameters};
pub use functions::{function, is_global_named, own_type, signature_of};
pub use globals::{
    first_global, is_function_named, lacks_needed_size, repeated_global, with_initial,
};
pub use numbered::DefinedNames;
pub use variables::{completed_array, new_variable, with_variable_kind};
