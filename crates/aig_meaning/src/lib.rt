//! What a circuit means over 0, 1 and x: steps, traces and completions.
//!
//! This crate has definitions and laws, and no code that runs. Definitions and contracts of
//! `aig_image`, `aig_convert`, `aig_unroll` and `aig_sim` cite them.
//!
//! The definitions that matter most are `IsStepAssignment`, `IsTrace`, `MeansTheSame` and
//! `IsCompletion`.
#![tactic(auto)]

pub mod laws;
