//! The check of circuits. What a circuit is (`aig_circuit`), maps from variables (`aig_tables`),
//! the order of gates (`aig_topo`), circuits that are well formed (`aig_checked`) and the devices
//! of `aig_io` are reached here too.
//!
//! Others call `check`, which makes a `Checked` of a `Circuit` or reports its first fault; and
//! `Names`, what symbols named so far.
//!
//! The definition that matters most is `first_structural_fault`.
#![tactic(auto)]

mod checks;
pub mod laws;
mod names;

pub use crate::checks::{Keep, check, is_defined_once};
pub use crate::names::{NamedCounts, Names};
pub use aig_checked::{
    Checked, Ordered, copy_comment, copy_justice, copy_symbols, is_in_binary_order,
    is_numbered_in_order, same,
};
pub use aig_circuit::{
    BorrowedSymbol, Circuit, EachSymbol, Gate, Justice, Kind, LARGEST, Latch, Listing, Lit,
    OutOfMemory, Reset, Symbol, Symbols, Val, Var,
};
pub use aig_io::{
    Block, DeviceFault, MOST_DIGITS, MemorySink, MemorySource, Output, ROOM, ReadError, ReadSource,
    Sink, SliceSource, Source, VecSink, Window, WriteSink, read_all, read_to_end,
};
pub use aig_tables::VarMap;
pub use aig_topo::{Order, Steps, gate_order};
