//! Tests of the engines over memory: requests that are made here, without a command line, and texts
//! that are large.
#![tactic(auto)]

#[cfg(test)]
mod conversions;
#[cfg(test)]
mod large;
#[cfg(test)]
mod unrollings;
