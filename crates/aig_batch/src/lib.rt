//! Many runs: a whole stimulus that is read first and stepped side by side.
//!
//! Others call `simulate_batched`, which reads a stimulus to its end.
#![tactic(auto)]

mod batched;
mod collected;
mod front;
mod runs_read;
mod text_group;

pub use crate::batched::{simulate_batched, simulate_batched_into};
