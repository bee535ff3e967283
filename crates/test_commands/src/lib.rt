//! Tests of what command lines ask for.
#![tactic(auto)]

#[cfg(test)]
mod rows;
#[cfg(test)]
mod tools;
