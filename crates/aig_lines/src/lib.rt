//! Lines: those of a text, and of bytes that come in pieces.
//!
//! Others call `split_line` and `ended_lines`, which cut a text, and `Cursor`, a place in it;
//! `LineFeeder`, which hands the lines of bytes that come on to a `LineTaker`; `feed_source`, which
//! feeds it the bytes of a source; and `without_return`.
//!
//! The definitions that matter most are `lines_of`, `fold_lines` and `fed`.
#![tactic(auto)]

mod feeder;
pub mod laws;
mod line;
mod partial_line;
mod source;
mod text;

pub use crate::feeder::{LineFeeder, LineTaker};
pub use crate::line::{Cursor, Line, ended_lines, split_line};
pub use crate::partial_line::PartialLine;
pub use crate::source::feed_source;
pub use crate::text::without_return;
