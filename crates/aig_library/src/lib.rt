//! Conversion, unrolling, simulation and witnesses from bytes to bytes, in memory; and circuits as
//! arrays: read, written, and stepped.
//!
//! Others call `convert`, `justice_as_bad`, `unroll`, `write_clauses`, `reach`, `refute`, `invariant_clauses`,
//! `never`, `simulate`, `witness`, `dump_witness`, `read`, `write`, `step` and `message`. What is
//! asked of them is numbers, and so is the `Outcome` that each call answers: a caller may stand in
//! any language. A call makes its whole text first, and then copies it to the output where there is
//! room for it; otherwise the output is as it was. So it is with arrays.
//!
//! The definitions that matter most are `Answers`, which the answers of each call stand on,
//! as `ConvertAnswers`, `ReadAnswers` and `StepAnswers`; `Comes`, and `fault_outcome`.
#![tactic(auto)]

mod arrays;
mod asked;
mod comparing;
pub mod laws;
mod memory;
mod outcome;
mod simulation;
mod solving;
mod stepping;
mod texts;
mod verdicts;
mod witness_dump;
mod wording;

pub use crate::arrays::{read, write};
pub use crate::asked::{
    ALL_BAD, ASCII, BY_NAME, JUSTICE, KEEP_MAP, ORDERED, OUTPUTS_AS_BAD, PROPERTIES, SIMPLIFIED,
    SIMPLIFY, STRIP, UNDO_MAP, VCD,
};
pub use crate::comparing::miter;
pub use crate::outcome::{
    BAD, BAD_OPTIONS, DONE, GATE, INPUT, LINE, MAP_LINE, NOT_CONFIRMED, OUT_OF_MEMORY, OUTPUT,
    Outcome, REFUSED, SECOND_REFUSED, TOO_SHORT, VALUE, WHOLE, WORD,
};
pub use crate::simulation::simulate;
pub use crate::solving::{invariant_clauses, never, reach, refute};
pub use crate::stepping::step;
pub use crate::texts::{convert, justice_as_bad, unroll, write_clauses};
pub use crate::verdicts::witness;
pub use crate::witness_dump::dump_witness;
pub use crate::wording::message;
