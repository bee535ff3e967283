//! The trace of a stimulus that is taken line by line.
//!
//! Others call `simulate`, which writes its text, and `simulate_into`, which hands its lines to a
//! `RowTaker`. Where a whole stimulus is read first, `aig_batch` calls `StimulusReader`
//! for the lines that it does not step run by run, and `is_entry`.
#![tactic(auto)]

mod entry;
mod line_tracer;
mod reader;
mod row_taker;
mod side_by_side;
mod stream;
mod taker;
mod tracer;
mod waiting;

pub use crate::entry::is_entry;
pub use crate::reader::StimulusReader;
pub use crate::row_taker::{Lent, RowTaker};
pub use crate::side_by_side::MOST_INPUTS;
pub use crate::stream::{simulate, simulate_into};
pub use crate::tracer::line_room;
