//! The binary image of a circuit: the same circuit by other variables and in another order.
//!
//! Others call `binary_image` and `into_binary`, which make the image, and `relabel`, which gives a
//! circuit other variables in its own memory. `aig_convert` also calls `Renumbering` and
//! `sort_operands`, and `aig_arrays` `gate_numbers`.
//!
//! The definitions that matter most are `relabelled`, `reordered` and `IsBinaryImage`.
#![tactic(auto)]

pub mod algebra;
mod image;
mod in_turn;
mod labelling;
pub mod laws;
mod numbers;
mod placed;
mod ranked;

pub use crate::image::{Renumbering, binary_image, into_binary, sort_operands};
pub use crate::labelling::{Labels, NamesVariables, relabel};
pub use crate::numbers::{Defines, Numbers};
pub use crate::placed::gate_numbers;
pub use aig_topo::Steps;
