//! Tests of public calls below the top one: what no text of a case can say.
#![tactic(auto)]

#[cfg(test)]
mod calls;
