//! Calls (C11 6.5.2.2): of functions of the text and of those that each text has, given what the arguments were found
//! to be.
#![tactic(auto)]

mod added;
mod answers;
mod arguments;
mod callees;
mod given;
mod laws;
mod printing;

pub use added::fetch_add;
pub use answers::{answered, wrong_call};
pub use arguments::{
    add_argument, add_surplus, converted, end_arguments, keep_argument, kind_taken, no_arguments,
    parameter_at,
};
pub use callees::{Callee, call_of_text, function_called};
pub use given::{given_call, result_type};
pub use laws::{law_arguments, law_calls, law_printed};
pub use printing::{PrintArguments, add_printed, fits, no_print_arguments, parts_of, print};
