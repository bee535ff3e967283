//! Single steps of a circuit, and what they are made of: lines of a stimulus, and the line that
//! shows a step.
//!
//! Others call `Simulator` for single steps. The crates of the simulator above this one call
//! `Stepper`, `Machine`, `Table` and `RowLine`.
//!
//! The definitions that matter most are `stimulus`, `IsTraceText`, `TraceSays` and `Stepped`.
#![tactic(auto)]

mod cells;
mod evaluate;
pub mod laws;
mod machine;
mod simulator;
mod stepper;
mod stimulus;
mod trace;

pub use crate::cells::{Code, Table};
pub use crate::evaluate::Pair;
pub use crate::machine::Machine;
pub use crate::simulator::{Row, Simulator};
pub use crate::stepper::Stepper;
pub use crate::stimulus::is_stop;
pub use crate::trace::{Columns, RowLine, write_text_column};
