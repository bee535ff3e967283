//! The header line of a file.
ghost use Rattle.std.specs.Prelude.{◌≡◌, ◌+◌, ◌≤◌, Some, IfOk, length, nat_lt};
ghost use Rattle.std.specs.List.{list_any, position_or_len};
ghost use Rattle.aig_lines.specs.Lines.{line as line_of};
ghost use Rattle.aig_text.specs.Begun.{IsLimited};
ghost use Rattle.aig_text.specs.Reading.{begins_with_word, ends_word, header_within, header_of};

use crate::limits::Limits;
use aig_core::LARGEST;
use aig_fault::Kind;
use aig_lines::Line;
use aig_rows::more_numbers;

/// The first word of an ASCII file.
pub const ASCII_WORD: &[u8] = b"aag";

/// How many numbers a header has at most.
pub const HEADER_NUMBERS: usize = 9;

/// How many of them are never left out. A number that is left out is 0.
pub const HEADER_LEAST: usize = 5;

/// The numbers of a header (AIGER report, AIGER 1.9): the largest variable index and the counts.
#[derive(Clone, Copy, Debug, PartialEq, Eq)]
pub struct Header {
    /// The largest variable index.
    pub max_var: u32,
    /// How many inputs the file lists.
    pub inputs: u32,
    /// How many latches.
    pub latches: u32,
    /// How many outputs.
    pub outputs: u32,
    /// How many AND gates.
    pub gates: u32,
    /// How many bad states.
    pub bad: u32,
    /// How many invariant constraints.
    pub constraints: u32,
    /// How many justice properties.
    pub justice: u32,
    /// How many fairness constraints.
    pub fairness: u32,
    /// The limit within which the file is read: the sizes of its justice properties add up to so
    /// much at most.
    pub limit: u32,
}

fn first_word_len(text: &[u8]) -> usize
    ensures value { result ≡ position_or_len ends_word text.now }
    ensures within { result ≤ length text.now }
{
    text.iter()
        .take_while(|byte| !(**byte == b' ' || **byte == b'\r'))
        .count()
}

pub(crate) fn begins_with_word(text: &[u8], word: &[u8]) -> bool
    ensures { result ≡ begins_with_word word.now text.now }
{
    let (first, _) = text.split_at(first_word_len(text));
    first == word
}

fn any_above(limit: u64, numbers: &[u64]) -> bool
    ensures { result ≡ list_any (λ n. nat_lt limit n) numbers.now }
{
    numbers.iter().any(|number| *number > limit)
}

#[tactic(auto, unfolding(crate::specs::Reading::header_within))]
fn within(limit: u32, numbers: [u64; HEADER_NUMBERS]) -> Result<Header, Kind>
    ensures value { result ≡ header_within limit (Some numbers) }
    ensures limited { IfOk result (λ h. (h.max_var ≤ limit) × (h.limit ≤ limit)
        × (h.inputs + h.latches + h.gates ≤ h.max_var)) }
{
    if any_above(u64::from(limit), &numbers) {
        return Err(Kind::TooLarge);
    }
    let [
        max_var,
        inputs,
        latches,
        outputs,
        gates,
        bad,
        constraints,
        justice,
        fairness,
    ] = numbers;
    if max_var < inputs + latches + gates {
        return Err(Kind::BadHeader);
    }
    Ok(Header {
        max_var: max_var as u32,
        inputs: inputs as u32,
        latches: latches as u32,
        outputs: outputs as u32,
        gates: gates as u32,
        bad: bad as u32,
        constraints: constraints as u32,
        justice: justice as u32,
        fairness: fairness as u32,
        limit,
    })
}

#[tactic(auto, unfolding(crate::specs::Reading::header_of))]
pub(crate) fn read_header(word: &[u8], line: Line, limits: Limits) -> Result<Header, Kind>
    ensures value { result ≡ header_of word.now limits.max_var
        (line_of line.entry.text.now line.entry.ended) }
    ensures limited { IfOk result (λ h. IsLimited h) }
{
    if !begins_with_word(line.text, word) {
        return Err(Kind::NotAiger);
    }
    let (_, rest) = line.text.split_at(word.len());
    match more_numbers::<HEADER_NUMBERS>(rest, line.ended, HEADER_LEAST) {
        Some(numbers) => within(limits.max_var.min(LARGEST), numbers),
        None => Err(Kind::BadHeader),
    }
}
