//! Tests of the regions' locks, in one thread and in many.
#![tactic(auto)]

#[cfg(test)]
mod counter;
#[cfg(test)]
mod pairs;
#[cfg(test)]
mod rows;
#[cfg(test)]
mod threads;
