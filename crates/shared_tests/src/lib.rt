//! Tests of the heap that threads share.
#![tactic(auto)]

#[cfg(test)]
mod asking;
#[cfg(test)]
mod legal;
#[cfg(test)]
mod meeting;
#[cfg(test)]
mod rows;
#[cfg(test)]
mod scripts;
#[cfg(test)]
mod threads;
