//! Laws of trace texts.
//!
//! This crate has definitions and laws, and no code that runs. They speak of the definitions of
//! `aig_step`, so that who cites them need not wait for the crates that make a trace. `aig_sim`
//! passes them on by name.
//!
//! The definitions that matter most are `OneTraceText`, `SameMeaningSameText` and
//! `KnownCharactersStay`.
#![tactic(auto)]

pub mod laws;
