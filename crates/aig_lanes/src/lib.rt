//! Steps of 256 runs side by side, a lane for each.
//!
//! Others call `Bench`, which steps the runs of a group, or a step in each lane; `Vectors` and
//! `RunGroup`, which are its inputs; and `LaneColumns`, `Sheet` and `ShownLine` for the lines of
//! the steps.
//!
//! The definitions that matter most are `IsBench`, `IsRunOf` and `IsTraceOf`.
#![tactic(auto)]

mod bench;
mod byte_rows;
mod input_bits;
mod input_planes;
mod lane_columns;
mod run;
mod sheets;
mod shown_line;
mod transposed;
mod vectors;

pub use crate::bench::Bench;
pub use crate::lane_columns::LaneColumns;
pub use crate::run::{FullRow, Run, Trace};
pub use crate::sheets::Sheet;
pub use crate::shown_line::ShownLine;
pub use crate::vectors::{RunGroup, Vectors};
