//! What came of a call, in numbers.
ghost use Rattle.std.specs.Prelude.{◌≡◌, IfErr, IfOk, OnOk};
ghost use Rattle.aig_library.specs.Outcome.{ending, fault_outcome, IsPlaced, outcome_of};
ghost use Rattle.aig_library.specs.Outcome.{place_numbers, second_outcome};

use aig_fault::{Fault, Place, Stopped};

/// The text was written, or the witness is confirmed.
pub const DONE: u32 = 0;

/// The output has no room for the text.
pub const TOO_SHORT: u32 = 1;

/// The input is refused: it has a fault.
pub const REFUSED: u32 = 2;

/// Memory was refused.
pub const OUT_OF_MEMORY: u32 = 3;

/// The options exclude each other, or are not known, or a number is out of its range.
pub const BAD_OPTIONS: u32 = 4;

/// The witness file is right, and no step shows what it claims. If its run is dumped, the text was
/// written.
pub const NOT_CONFIRMED: u32 = 5;

/// The second of two inputs is refused: it has a fault, or does not fit the first.
pub const SECOND_REFUSED: u32 = 6;

/// The fault has no one place.
pub const WHOLE: u32 = 0;

/// The fault is in a line.
pub const LINE: u32 = 1;

/// The fault is in a gate of a binary file.
pub const GATE: u32 = 2;

/// The fault is in a line of the map.
pub const MAP_LINE: u32 = 3;

/// The fault is in an entry of the words.
pub const WORD: u32 = 4;

/// The fault is in a value.
pub const VALUE: u32 = 5;

/// The fault is at an input.
pub const INPUT: u32 = 6;

/// The fault is at an output.
pub const OUTPUT: u32 = 7;

/// The fault is at a bad state.
pub const BAD: u32 = 8;

/// What came of a call.
#[repr(C)]
#[derive(Clone, Copy, Debug, PartialEq, Eq)]
pub struct Outcome {
    /// How it ended.
    pub status: u32,
    /// What is wrong, where the status is `REFUSED` or `SECOND_REFUSED`: the number of a `Kind`.
    pub kind: u32,
    /// Where it is wrong: `WHOLE`, `LINE`, `GATE`, `MAP_LINE`, `WORD`, `VALUE`, `INPUT`, `OUTPUT` or
    /// `BAD`.
    pub place: u32,
    /// The variable, the literal or the bad state that the fault names.
    pub subject: u32,
    /// The number of the line or of the gate, counted from 1; or that of the entry's first word, of
    /// the value, or of the step at which a witness is confirmed, from 0.
    pub number: u64,
    /// How many bytes the text has, or words or values there are, where the status is `DONE`,
    /// `TOO_SHORT` or `NOT_CONFIRMED`.
    pub length: u64,
}

/// An outcome without a fault.
pub(crate) fn ending(status: u32, number: u64, length: u64) -> Outcome
    ensures { result ≡ ending status number length }
{
    Outcome {
        status,
        kind: 0,
        place: WHOLE,
        subject: 0,
        number,
        length,
    }
}

/// The numbers of a place.
fn numbers_of_place(place: Place) -> (u32, u64)
    ensures { result ≡ place_numbers place }
{
    match place {
        Place::Whole => (WHOLE, 0),
        Place::Line(number) => (LINE, number),
        Place::Gate(number) => (GATE, number),
        Place::MapLine(number) => (MAP_LINE, number),
        Place::Word(number) => (WORD, number),
        Place::Value(number) => (VALUE, number),
        Place::Input(number) => (INPUT, number),
        Place::Output(number) => (OUTPUT, number),
        Place::Bad(number) => (BAD, number),
    }
}

/// The outcome of a fault.
pub(crate) fn fault_outcome(fault: &Fault) -> Outcome
    ensures { result ≡ fault_outcome fault.now }
{
    let (place, number) = numbers_of_place(fault.place);
    Outcome {
        status: REFUSED,
        kind: fault.kind.number(),
        place,
        subject: fault.subject,
        number,
        length: 0,
    }
}

/// The outcome where nothing was made. A source in memory does not fail, and a sink in memory fails
/// where memory is refused.
pub(crate) fn outcome_of(stopped: &Stopped) -> Outcome
    ensures { result ≡ outcome_of stopped.now }
{
    match stopped {
        Stopped::Refused(fault) => fault_outcome(fault),
        Stopped::OutOfMemory | Stopped::ReadFailed | Stopped::WriteFailed => {
            ending(OUT_OF_MEMORY, 0, 0)
        }
    }
}

/// The outcome where nothing was made of the second of two inputs.
fn second_outcome(stopped: &Stopped) -> Outcome
    ensures { result ≡ second_outcome stopped.now }
{
    match stopped {
        Stopped::Refused(fault) => Outcome {
            status: SECOND_REFUSED,
            ..fault_outcome(fault)
        },
        Stopped::OutOfMemory | Stopped::ReadFailed | Stopped::WriteFailed => {
            ending(OUT_OF_MEMORY, 0, 0)
        }
    }
}

/// Puts the text at the front of the output, where there is room for it.
fn place_text(text: &[u8], output: &mut [u8]) -> Outcome
    ensures { IsPlaced text.now output.old output.new result }
{
    let length = text.len();
    if length > output.len() {
        return ending(TOO_SHORT, 0, length as u64);
    }
    output[..length].copy_from_slice(text);
    ending(DONE, 0, length as u64)
}

/// Answers a call that makes a text. Without a text the output is left alone.
pub(crate) fn answer(made: Result<Vec<u8>, Stopped>, output: &mut [u8]) -> Outcome
    ensures text { IfOk made (λ text. IsPlaced text.items output.old output.new result) }
    ensures stopped { IfErr made (λ stopped. (output.new ≡ output.old)
        × (result ≡ outcome_of stopped)) }
{
    match made {
        Ok(text) => place_text(text.as_slice(), output),
        Err(stopped) => outcome_of(&stopped),
    }
}

/// Answers a call that makes a text of two inputs, once the first was read.
pub(crate) fn answer_second(made: Result<Vec<u8>, Stopped>, output: &mut [u8]) -> Outcome
    ensures text { IfOk made (λ text. IsPlaced text.items output.old output.new result) }
    ensures stopped { IfErr made (λ stopped. (output.new ≡ output.old)
        × (result ≡ second_outcome stopped)) }
{
    match made {
        Ok(text) => place_text(text.as_slice(), output),
        Err(stopped) => second_outcome(&stopped),
    }
}

/// Answers a call that shows something, by the text that says so.
pub(crate) fn answer_shown(made: Result<Vec<u8>, Stopped>) -> Outcome
    ensures shown { OnOk made (result ≡ ending DONE 0 0) }
    ensures stopped { IfErr made (λ stopped. result ≡ outcome_of stopped) }
{
    match made {
        Ok(_text) => ending(DONE, 0, 0),
        Err(stopped) => outcome_of(&stopped),
    }
}
