//! Conversion of circuits to binary order, and back.
//!
//! Others call `to_binary` and `into_binary`, which make the binary image; `to_binary_with_map` and
//! `into_binary_with_map`, which put a map block at the front of its comment; `write_mapped`, which
//! writes what the latter makes; and `undo`, which makes the source again by that block. What is
//! recorded, and how it is written and read, stands in `aig_map`.
#![tactic(auto)]

pub mod laws;
mod mapped;
mod plain;
mod undoing;

pub use crate::mapped::{MappedImage, into_binary_with_map, to_binary_with_map, write_mapped};
pub use crate::plain::to_binary;
pub use crate::undoing::undo;
pub use aig_image::into_binary;
