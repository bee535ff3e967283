//! Conversion and unrolling from bytes to bytes.
ghost use Rattle.std.specs.Prelude.{◌≡◌, ◌↔◌, IsTrue};
ghost use Rattle.aig_library.specs.Answers.{ClausesAnswers, ConvertAnswers, JusticeAnswers};
ghost use Rattle.aig_library.specs.Answers.{UnrollAnswers};
ghost use Rattle.aig_library.specs.Asked.{CanConvert, CanReach, CanTurnJustice, CanUnroll};
ghost use Rattle.aig_library.specs.Asked.{conversion};

use crate::asked::{
    ASCII, KEEP_MAP, OUTPUTS_AS_BAD, SIMPLIFY, STRIP, UNDO_MAP, clauses, conversion, has,
    justice_conversion, limit_of, only_has, unrolling,
};
use crate::memory::{Inputs, run_in_memory};
use crate::outcome::{BAD_OPTIONS, Outcome, answer, ending};
use aig_command::ToAig;
use aig_commands::{Job, Reading};
use aig_core::LARGEST;
use std::alloc::Global;

/// Whether the numbers can be met that ask for this conversion.
fn can_convert(options: u32, max_var: u32, request: &ToAig) -> bool
    requires { request.now ≡ conversion options max_var }
    ensures { IsTrue result ↔ CanConvert options max_var }
{
    only_has(
        options,
        ASCII + STRIP + KEEP_MAP + UNDO_MAP + OUTPUTS_AS_BAD + SIMPLIFY,
    ) && max_var <= LARGEST
        && !(request.keep_map && (request.ascii || request.strip || request.undo_map))
        && !(request.keep_map && request.simplify)
        && !(has(options, OUTPUTS_AS_BAD) && (request.keep_map || request.undo_map))
}

/// Converts the bytes of an AIGER file as the options ask: any of `ASCII`, `STRIP`, `KEEP_MAP`,
/// `UNDO_MAP`, `OUTPUTS_AS_BAD` and `SIMPLIFY`, but `KEEP_MAP` alone, and `OUTPUTS_AS_BAD` without
/// `UNDO_MAP`.
/// The largest index and the counts of the input are at most `max_var`.
pub fn convert(
    alloc: Global,
    options: u32,
    max_var: u32,
    input: &[u8],
    output: &mut [u8],
) -> Outcome
    ensures { ConvertAnswers options max_var input.now output.old output.new result }
{
    let request = conversion(options, max_var);
    if !can_convert(options, max_var, &request) {
        return ending(BAD_OPTIONS, 0, 0);
    }
    let inputs = Inputs {
        model: input,
        file: b"",
        refutation: b"",
    };
    let job = Job::Read(Reading::ToAig(request));
    answer(run_in_memory(alloc, &inputs, job), output)
}

/// Whether the numbers can be met that ask for a justice property as a bad state.
fn can_turn_justice(options: u32, max_var: u32) -> bool
    ensures { IsTrue result ↔ CanTurnJustice options max_var }
{
    only_has(options, ASCII + STRIP + SIMPLIFY) && max_var <= LARGEST
}

/// Converts the bytes of an AIGER file to a circuit with one bad state, which is reached exactly
/// where the file's circuit has a run that is fair to the justice property of this number, counted
/// from 0. The options are any of `ASCII`, `STRIP` and `SIMPLIFY`.
pub fn justice_as_bad(
    alloc: Global,
    options: u32,
    property: u32,
    max_var: u32,
    input: &[u8],
    output: &mut [u8],
) -> Outcome
    ensures { JusticeAnswers options property max_var input.now output.old output.new result }
{
    if !can_turn_justice(options, max_var) {
        return ending(BAD_OPTIONS, 0, 0);
    }
    let inputs = Inputs {
        model: input,
        file: b"",
        refutation: b"",
    };
    let request = justice_conversion(options, property, max_var);
    let job = Job::Read(Reading::ToAig(request));
    answer(run_in_memory(alloc, &inputs, job), output)
}

/// Whether the numbers can be met that ask for this unrolling.
fn can_unroll(options: u32, frames: u32, max_var: u32) -> bool
    ensures { IsTrue result ↔ CanUnroll options frames max_var }
{
    only_has(options, ASCII + SIMPLIFY) && max_var <= LARGEST && 1 <= frames && frames <= 1_000_000
}

/// Unrolls the circuit of an AIGER file over so many frames, from 1 to 1000000. The options are any
/// of `ASCII` and `SIMPLIFY`.
pub fn unroll(
    alloc: Global,
    options: u32,
    frames: u32,
    max_var: u32,
    input: &[u8],
    output: &mut [u8],
) -> Outcome
    ensures { UnrollAnswers options frames max_var input.now output.old output.new result }
{
    if !can_unroll(options, frames, max_var) {
        return ending(BAD_OPTIONS, 0, 0);
    }
    let inputs = Inputs {
        model: input,
        file: b"",
        refutation: b"",
    };
    let job = Job::Read(Reading::Unroll(unrolling(options, frames, max_var)));
    answer(run_in_memory(alloc, &inputs, job), output)
}

/// Whether the numbers can be met that ask for clauses, or for the witness in an answer on them.
pub(crate) fn can_reach(frames: u32, max_var: u32) -> bool
    ensures { IsTrue result ↔ CanReach frames max_var }
{
    1 <= frames && frames <= 1_000_000 && limit_of(max_var) <= LARGEST
}

/// Writes the clauses by which a bad state of the circuit of an AIGER file is 1, unrolled over so
/// many frames: that of this number, or any of them for `ALL_BAD`. With `SIMPLIFIED` added to the
/// limit they are those of the simplified circuit.
pub fn write_clauses(
    alloc: Global,
    property: u32,
    frames: u32,
    max_var: u32,
    input: &[u8],
    output: &mut [u8],
) -> Outcome
    ensures { ClausesAnswers property frames max_var input.now output.old output.new result }
{
    if !can_reach(frames, max_var) {
        return ending(BAD_OPTIONS, 0, 0);
    }
    let inputs = Inputs {
        model: input,
        file: b"",
        refutation: b"",
    };
    let job = Job::Read(Reading::Unroll(clauses(property, frames, max_var)));
    answer(run_in_memory(alloc, &inputs, job), output)
}
