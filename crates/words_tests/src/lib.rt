//! Tests of the words of the command line: a table of lines with what is answered.
#![tactic(auto)]

#[cfg(test)]
mod rows;
