//! Tests of the crates below the heap: layout, the forms of calls and replies, histories.
#![tactic(auto)]

#[cfg(test)]
mod calls;
#[cfg(test)]
mod layout;
#[cfg(test)]
mod numbers;
