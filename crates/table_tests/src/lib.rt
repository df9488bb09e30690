//! Tests of the layout table: look-ups beside the slow way, and when a table is refused.
#![tactic(auto)]

#[cfg(test)]
mod large;
#[cfg(test)]
mod look_ups;
#[cfg(test)]
mod made_types;
