//! The bytes and marks of one region's slots.
#![tactic(auto)]

mod header_words;
mod numbers;
mod page;
mod pages;
mod store;
#[cfg(test)]
mod tests;

pub use store::{Store, law_slots};
