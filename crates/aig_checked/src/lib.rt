//! Circuits that are known to be well formed, and those in binary order.
//!
//! Others call `Checked`, a circuit that is well formed; `Ordered`, one that is in binary order
//! too; the tests for it, `is_in_binary_order` and `is_numbered_in_order`; `same`; and copies of
//! the parts of a circuit. The check that makes a `Checked` of any circuit that is one stands
//! above, in `aig_core`.
#![tactic(auto)]

mod checked;
mod copies;
mod ordered;

pub use crate::checked::{Checked, same};
pub use crate::copies::{copy_comment, copy_justice, copy_symbols};
pub use crate::ordered::{Ordered, is_in_binary_order, is_numbered_in_order};
