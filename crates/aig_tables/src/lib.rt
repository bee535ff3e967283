//! Maps and sets of variables. To every contract a map is a finite map and a set a finite set,
//! whatever tables they keep.
//!
//! Others call `VarMap`, which `new` makes for about so many variables and `for_circuit` for those
//! that a circuit defines, and `VarSet`. `Spacing` tells how far these lie apart, and `Ranks` gives
//! them places without gaps.
#![tactic(auto)]

mod var_map;
mod var_set;

pub use crate::var_map::{Ranks, Spacing, VarMap};
pub use crate::var_set::VarSet;
