//! Whole numbers of C: their types, conversions and operators, over 64 bits for each value.
#![tactic(auto)]

mod arithmetic;
mod division;
mod laws;
#[cfg(test)]
mod mixed_tables;
mod operators;
#[cfg(test)]
mod plain_tables;
mod shifts;
#[cfg(test)]
mod tests;
mod trap;
mod types;
mod unary;
mod values;

pub use laws::{law_conversion, law_division, law_types, law_values};
pub use operators::BinaryOperator;
pub use shifts::{shift_left, shift_right};
pub use trap::Trap;
pub use types::{WholeType, Width, common};
pub use unary::UnaryOperator;
pub use values::{bits_of, converted, number_of};
