//! Pictures of circuits, as text that Graphviz lays out.
//!
//! Others call `picture_of`, which finds what a picture shows: the whole circuit, or something that
//! it shows with its cone; `Subject::is_in`, which tells of a position that is not there; and
//! `write_dot`, which writes the text to a sink. The definitions that matter most are
//! `IsPictureOf`, `statements` and `dot_text`.
#![tactic(auto)]

mod entries;
mod graph;
mod label;
pub mod laws;
mod picture;
mod roots;
mod shown;
mod subject;
mod writer;

pub use crate::picture::{NotDrawn, Picture, picture_of};
pub use crate::subject::{Part, Subject};
pub use crate::writer::write_dot;
