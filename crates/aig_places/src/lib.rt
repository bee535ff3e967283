//! Tables of values for runs side by side: each literal has a plane, with a bit for each of 256
//! lanes, and each variable a place, where another may stand after it.
//!
//! Others call `new_table`, `fill_table` and `begin_table`, which make tables of x and begin them;
//! `places_for`, which finds the places for a circuit; `assign_lanes`, which puts the values of a
//! step; and `planes_of`, `put_pair`, `put_in_all_lanes` and `put_literal_planes` for parts of one.
//!
//! The definitions that matter most are `IsLane`, `ArePlaces` and `StandFor`.
#![tactic(auto)]

mod lanes;
mod places;
mod placing;
mod planes;
mod tables;

pub use crate::lanes::{assign_lanes, planes_of, put_in_all_lanes, put_literal_planes, put_pair};
pub use crate::places::Places;
pub use crate::placing::places_for;
pub use crate::planes::{Plane, plane_of};
pub use crate::tables::{begin_table, fill_table, new_table};
