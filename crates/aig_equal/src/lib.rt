//! What the miter of two circuits says of them: they are alike exactly where none of its bad states
//! is reached.
//!
//! This crate has definitions and laws, and no code that runs.
//!
//! The definitions that matter most are `AreAlikeFor`, `AlikeExactlyWhereUnreached` and
//! `RefutedMeansAlike`.
#![tactic(auto)]

pub mod laws;
