//! Circuits paired by names: a circuit with its inputs, and with what is compared of it, in the
//! order in which another one names them.
//!
//! Others call `check_names` and `order_by_names`.
//!
//! The definitions that matter most are `first_name_fault` and `by_names`.
#![tactic(auto)]

mod index;
pub mod laws;
mod names;
mod order;
mod paired;

pub use crate::order::{check_names, order_by_names};
