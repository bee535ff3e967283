//! The calls of `aig_library` for programs in C, and in languages that call C. `include/aigtools.h`
//! declares and documents them.
#![tactic(auto)]

ghost use Rattle.std.specs.Prelude.{◌≡◌, ◌≤◌};
ghost use Rattle.aig_command.specs.declared.builder.TheConstants.{VERSION};
ghost use Rattle.aig_library.specs.Answers.{ClausesAnswers, ConvertAnswers, DumpAnswers};
ghost use Rattle.aig_library.specs.Answers.{InvariantAnswers, JusticeAnswers, MiterAnswers, NeverAnswers};
ghost use Rattle.aig_library.specs.Answers.{ReachAnswers, RefuteAnswers, SimulateAnswers};
ghost use Rattle.aig_library.specs.Answers.{UnrollAnswers, WitnessAnswers};
ghost use Rattle.aig_library.specs.Arrays.{ReadAnswers, StepAnswers, WriteAnswers, arrays};
ghost use Rattle.aig_library.specs.Message.{IsWritten, outcome_text};
ghost use Rattle.aigtools_c.specs.Version.{version_text};

use aig_arrays::Counts;
use aig_library::{
    Outcome, convert, dump_witness, invariant_clauses, justice_as_bad, message, miter, never,
    reach, read, refute, simulate, step, unroll, witness, write, write_clauses,
};
use std::alloc::Global;

/// Converts the bytes of an AIGER file.
#[unsafe(no_mangle)]
pub extern "C" fn aigtools_convert(
    alloc: Global,
    options: u32,
    max_var: u32,
    input: &[u8],
    output: &mut [u8],
    outcome: &mut Outcome,
) -> u32
    ensures status { result ≡ outcome.new.status }
    ensures answers { ConvertAnswers options max_var input.now output.old output.new outcome.new }
{
    *outcome = convert(alloc, options, max_var, input, output);
    outcome.status
}

/// Converts the bytes of an AIGER file, with a justice property as a bad state.
#[unsafe(no_mangle)]
pub extern "C" fn aigtools_justice_as_bad(
    alloc: Global,
    options: u32,
    property: u32,
    max_var: u32,
    input: &[u8],
    output: &mut [u8],
    outcome: &mut Outcome,
) -> u32
    ensures status { result ≡ outcome.new.status }
    ensures answers { JusticeAnswers options property max_var input.now
        output.old output.new outcome.new }
{
    *outcome = justice_as_bad(alloc, options, property, max_var, input, output);
    outcome.status
}

/// Unrolls the circuit of an AIGER file.
#[unsafe(no_mangle)]
pub extern "C" fn aigtools_unroll(
    alloc: Global,
    options: u32,
    frames: u32,
    max_var: u32,
    input: &[u8],
    output: &mut [u8],
    outcome: &mut Outcome,
) -> u32
    ensures status { result ≡ outcome.new.status }
    ensures answers { UnrollAnswers options frames max_var input.now
        output.old output.new outcome.new }
{
    *outcome = unroll(alloc, options, frames, max_var, input, output);
    outcome.status
}

/// Writes the clauses by which a bad state of the unrolled circuit of an AIGER file is 1.
#[unsafe(no_mangle)]
pub extern "C" fn aigtools_clauses(
    alloc: Global,
    property: u32,
    frames: u32,
    max_var: u32,
    input: &[u8],
    output: &mut [u8],
    outcome: &mut Outcome,
) -> u32
    ensures status { result ≡ outcome.new.status }
    ensures answers { ClausesAnswers property frames max_var input.now
        output.old output.new outcome.new }
{
    *outcome = write_clauses(alloc, property, frames, max_var, input, output);
    outcome.status
}

/// Writes the witness in a solver's answer on these clauses.
#[unsafe(no_mangle)]
pub extern "C" fn aigtools_answer(
    alloc: Global,
    property: u32,
    frames: u32,
    max_var: u32,
    model: &[u8],
    answer: &[u8],
    output: &mut [u8],
    outcome: &mut Outcome,
) -> u32
    ensures status { result ≡ outcome.new.status }
    ensures answers { ReachAnswers property frames max_var model.now answer.now
        output.old output.new outcome.new }
{
    *outcome = reach(alloc, property, frames, max_var, model, answer, output);
    outcome.status
}

/// Checks a solver's refutation of these clauses.
#[unsafe(no_mangle)]
pub extern "C" fn aigtools_refute(
    alloc: Global,
    property: u32,
    frames: u32,
    max_var: u32,
    model: &[u8],
    refutation: &[u8],
    outcome: &mut Outcome,
) -> u32
    ensures status { result ≡ outcome.new.status }
    ensures answers { RefuteAnswers property frames max_var model.now refutation.now outcome.new }
{
    *outcome = refute(alloc, property, frames, max_var, model, refutation);
    outcome.status
}

/// Writes the clauses in which an invariant of the circuit of an AIGER file is to be shown.
#[unsafe(no_mangle)]
pub extern "C" fn aigtools_invariant_clauses(
    alloc: Global,
    property: u32,
    max_var: u32,
    model: &[u8],
    invariant: &[u8],
    output: &mut [u8],
    outcome: &mut Outcome,
) -> u32
    ensures status { result ≡ outcome.new.status }
    ensures answers { InvariantAnswers property max_var model.now invariant.now
        output.old output.new outcome.new }
{
    *outcome = invariant_clauses(alloc, property, max_var, model, invariant, output);
    outcome.status
}

/// Checks a solver's refutation of these clauses.
#[unsafe(no_mangle)]
pub extern "C" fn aigtools_never(
    alloc: Global,
    property: u32,
    max_var: u32,
    model: &[u8],
    invariant: &[u8],
    refutation: &[u8],
    outcome: &mut Outcome,
) -> u32
    ensures status { result ≡ outcome.new.status }
    ensures answers { NeverAnswers property max_var model.now invariant.now refutation.now
        outcome.new }
{
    *outcome = never(alloc, property, max_var, model, invariant, refutation);
    outcome.status
}

/// Makes the miter of the circuits of two AIGER files.
#[unsafe(no_mangle)]
pub extern "C" fn aigtools_miter(
    alloc: Global,
    options: u32,
    max_var: u32,
    first: &[u8],
    second: &[u8],
    output: &mut [u8],
    outcome: &mut Outcome,
) -> u32
    ensures status { result ≡ outcome.new.status }
    ensures answers { MiterAnswers options max_var first.now second.now
        output.old output.new outcome.new }
{
    *outcome = miter(alloc, options, max_var, first, second, output);
    outcome.status
}

/// Simulates the circuit of an AIGER file over a stimulus.
#[unsafe(no_mangle)]
pub extern "C" fn aigtools_simulate(
    alloc: Global,
    options: u32,
    max_var: u32,
    model: &[u8],
    stimulus: &[u8],
    output: &mut [u8],
    outcome: &mut Outcome,
) -> u32
    ensures status { result ≡ outcome.new.status }
    ensures answers { SimulateAnswers options max_var model.now stimulus.now
        output.old output.new outcome.new }
{
    *outcome = simulate(alloc, options, max_var, model, stimulus, output);
    outcome.status
}

/// Judges a witness file for the circuit of an AIGER file.
#[unsafe(no_mangle)]
pub extern "C" fn aigtools_witness(
    alloc: Global,
    max_var: u32,
    model: &[u8],
    file: &[u8],
    outcome: &mut Outcome,
) -> u32
    ensures status { result ≡ outcome.new.status }
    ensures answers { WitnessAnswers max_var model.now file.now outcome.new }
{
    *outcome = witness(alloc, max_var, model, file);
    outcome.status
}

/// Judges a witness file for the circuit of an AIGER file, and dumps the run that it claims.
#[unsafe(no_mangle)]
pub extern "C" fn aigtools_dump(
    alloc: Global,
    max_var: u32,
    model: &[u8],
    file: &[u8],
    output: &mut [u8],
    outcome: &mut Outcome,
) -> u32
    ensures status { result ≡ outcome.new.status }
    ensures answers { DumpAnswers max_var model.now file.now output.old output.new outcome.new }
{
    *outcome = dump_witness(alloc, max_var, model, file, output);
    outcome.status
}

/// Reads the bytes of an AIGER file into arrays.
#[unsafe(no_mangle)]
pub extern "C" fn aigtools_read(
    alloc: Global,
    options: u32,
    max_var: u32,
    input: &[u8],
    words: &mut [u32],
    bytes: &mut [u8],
    counts: &mut Counts,
    outcome: &mut Outcome,
) -> u32
    ensures status { result ≡ outcome.new.status }
    ensures answers { ReadAnswers options max_var input.now (arrays words.old bytes.old counts.old)
        (arrays words.new bytes.new counts.new) outcome.new }
{
    *outcome = read(alloc, options, max_var, input, words, bytes, counts);
    outcome.status
}

/// Writes the circuit that arrays tell as an AIGER file.
#[unsafe(no_mangle)]
pub extern "C" fn aigtools_write(
    alloc: Global,
    options: u32,
    counts: &Counts,
    words: &[u32],
    bytes: &[u8],
    output: &mut [u8],
    outcome: &mut Outcome,
) -> u32
    ensures status { result ≡ outcome.new.status }
    ensures answers { WriteAnswers options (arrays words.now bytes.now counts.now)
        output.old output.new outcome.new }
{
    *outcome = write(alloc, options, counts, words, bytes, output);
    outcome.status
}

/// Steps the circuit that words tell whose variables are numbered in order.
#[unsafe(no_mangle)]
pub extern "C" fn aigtools_step(
    counts: &Counts,
    words: &[u32],
    values: &mut [u8],
    outcome: &mut Outcome,
) -> u32
    ensures status { result ≡ outcome.new.status }
    ensures answers { StepAnswers counts.now words.now values.old values.new outcome.new }
{
    *outcome = step(counts, words, values);
    outcome.status
}

/// Puts the words for an outcome into the output, and answers how many bytes they have.
#[unsafe(no_mangle)]
pub extern "C" fn aigtools_message(outcome: &Outcome, output: &mut [u8]) -> usize
    ensures written { IsWritten (outcome_text outcome.now) output.old output.new result }
    ensures short { result ≤ 80 }
{
    message(outcome, output)
}

/// The version of the library, which is that of the program, in three bytes.
#[tactic(auto, using(std::proofs::lemmas::Fmt::decimal_digit))]
#[unsafe(no_mangle)]
pub extern "C" fn aigtools_version() -> u32
    ensures { version_text result ≡ VERSION.now }
{
    0x01_07_00
}
