//! Parts of a circuit: some of its outputs, bad states and justice properties, with their cone.
//!
//! Others call `select`, with a `Choice`, and `find_missing`, which tells of a position that is not
//! there.
//!
//! The definition that matters most is `IsSelection`.
#![tactic(auto)]

mod choice;
pub mod laws;
mod marks;
mod selection;
mod shown;
mod staying;
mod symbols;

pub use crate::choice::{Choice, find_missing};
pub use crate::selection::select;
