//! One step of a circuit that stands in words.
ghost use Rattle.aig_library.specs.Arrays.{StepAnswers};

use crate::outcome::{DONE, Outcome, TOO_SHORT, ending, fault_outcome};
use aig_array_steps::values_length;
use aig_arrays::Counts;

/// Steps the circuit that words tell whose variables are numbered in order, over the bytes of its
/// values: those of inputs and state are given, the others are set. It takes no memory. The
/// outcome's length is how many bytes of values there are.
pub fn step(counts: &Counts, words: &[u32], values: &mut [u8]) -> Outcome
    ensures { StepAnswers counts.now words.now values.old values.new result }
{
    let length = values_length(counts) as u64;
    match aig_array_steps::step(counts, words, values) {
        Ok(true) => ending(DONE, 0, length),
        Ok(false) => ending(TOO_SHORT, 0, length),
        Err(fault) => fault_outcome(&fault),
    }
}
