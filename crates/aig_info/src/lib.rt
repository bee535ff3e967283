//! What is counted of a circuit, as text.
//!
//! Others call `info_of`, which counts, `write_info`, which writes the numbers to a sink, as
//! lines or as a JSON object, and `depth`. The definitions that matter most are `IsInfoOf`,
//! `info_text` and `IsDepth`.
#![tactic(auto)]

mod counts;
mod info;
mod levels;
mod writer;

pub use crate::info::{Info, Sizes, Used, info_of};
pub use crate::levels::depth;
pub use crate::writer::{Form, write_info};
