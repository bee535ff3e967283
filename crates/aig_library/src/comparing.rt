//! Two circuits as one, in memory.
ghost use Rattle.std.specs.Prelude.{◌↔◌, IsTrue};
ghost use Rattle.aig_library.specs.Answers.{MiterAnswers};
ghost use Rattle.aig_library.specs.Asked.{CanCompare};

use crate::asked::{ASCII, BY_NAME, SIMPLIFY, comparison, only_has};
use crate::memory::{Inputs, read_bytes, run_in_memory};
use crate::outcome::{BAD_OPTIONS, Outcome, answer_second, ending, outcome_of};
use aig_commands::Reading;
use aig_core::LARGEST;
use std::alloc::Global;

/// Whether the numbers can be met that ask for a miter.
fn can_compare(options: u32, max_var: u32) -> bool
    ensures { IsTrue result ↔ CanCompare options max_var }
{
    only_has(options, ASCII + BY_NAME + SIMPLIFY) && max_var <= LARGEST
}

/// Makes the miter of the circuits of two AIGER files, whose bad states say where the two differ.
/// Options are `ASCII`, `BY_NAME` and `SIMPLIFY`. The status is `SECOND_REFUSED` where it is the second that has
/// a fault, or does not fit the first.
pub fn miter(
    alloc: Global,
    options: u32,
    max_var: u32,
    first: &[u8],
    second: &[u8],
    output: &mut [u8],
) -> Outcome
    ensures { MiterAnswers options max_var first.now second.now output.old output.new result }
{
    if !can_compare(options, max_var) {
        return ending(BAD_OPTIONS, 0, 0);
    }
    let request = comparison(options, max_var);
    match read_bytes(alloc, first, Reading::First(request)) {
        Ok(next) => {
            let inputs = Inputs {
                model: b"",
                file: second,
                refutation: b"",
            };
            answer_second(run_in_memory(alloc, &inputs, next), output)
        }
        Err(stopped) => outcome_of(&stopped),
    }
}
