//! Map blocks: what a conversion to binary order changed, as text at the front of a comment.
//!
//! `aig_convert` calls `record_map` and `record_new_map`, which make a block; `put_map_comment`,
//! which puts the comment with it, and `map_comment`, which makes that; `take_block`, which reads
//! one; and `source_variables`, `positions_by_place`, `into_recorded`, `make_undone`,
//! `tells_comment` and `tells_order`, of which undoing is made.
//!
//! The definitions that matter most are `block_text`, `IsMappedImage` and `IsUndoneFrom`.
#![tactic(auto)]

mod confirmed;
mod kept_map;
mod map_block;
mod map_reading;
mod map_text;
mod recorded;
mod recording;
mod turns;
mod undone;

pub use crate::confirmed::tells_comment;
pub use crate::kept_map::{KeptMap, KeptVariables};
pub use crate::map_block::{MapBlock, MappedGate};
pub use crate::map_reading::{TakenBlock, take_block};
pub use crate::map_text::{map_comment, put_map_comment};
pub use crate::recorded::{Recorded, into_recorded};
pub use crate::recording::{keep_variables, record_map, record_new_map};
pub use crate::turns::{positions_by_place, tells_order};
pub use crate::undone::{SourceVariables, make_undone, source_variables};
