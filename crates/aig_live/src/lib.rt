//! Liveness by safety: from a circuit and one of its justice properties a circuit is made that can
//! reach its bad state exactly where a run without end is fair to the property.
//!
//! Others call `live` with a circuit and the number of a property. `FoundLasso` is what a witness
//! of that circuit says of the first one.
//!
//! The definitions that matter most are `with_loop` and `NeverMeansNoFairRun`.
#![tactic(auto)]

mod gates;
mod lasso;
mod latches;
pub mod laws;
mod lists;
mod maker;
mod parts;
mod variables;

pub use crate::lasso::FoundLasso;
pub use crate::maker::live;
