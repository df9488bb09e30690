//! What declarators, specifiers, members and enumerations do with the state, a rule at a time: no tree is read and none is
//! built here.
#![tactic(auto)]

mod arrays;
mod beginning;
mod completing;
mod enumerators;
mod fields;
mod kinds;
mod making;
mod marks;
mod members;
mod names;
mod parameters;
mod parts;
mod sizes;
mod specifiers;
mod tags;
mod typedefs;

pub use arrays::{array_of, is_open, open_array_of};
pub use beginning::{predefined_names, start};
pub use completing::close_tag;
pub use enumerators::{enumerator_made, enumerator_value, next_value};
pub use fields::Fields;
pub use kinds::{adjusted, open_element, sized_parameter};
pub use making::{made, made_by, made_of};
pub use marks::{Marks, with_list, with_part};
pub use members::field_made;
pub use names::{close_scope, declared, given_of, is_given, is_taken, new_scope, predefined};
pub use parameters::{declares_function, own_list, parameter_made, parameter_named};
pub use parts::{copy_of, function_of, member_kind, pointed, typedef_used};
pub use sizes::count_of;
pub use specifiers::{basic_type, has_effect, storage_fault, type_or};
pub use tags::{enumeration_used, new_tag, open_enumeration, open_tag, tag_meant, tag_used};
pub use typedefs::with_typedef;
