//! The values of variables.
ghost use Rattle.std.specs.Prelude.{◌≡◌, ◌==◌, ◌<◌, ◌≤◌, ◌⊎◌, ℕ, List, IfSome, fold, length};
ghost use Rattle.std.specs.List.{position_or_len};
ghost use Rattle.aig_answer.specs.declared.reader.Spot.TheVariants.{Space};
ghost use Rattle.aig_answer.specs.Answer.{after, so_far, standing_at, with_value};
ghost use Rattle.aig_answer.specs.Parts.{awaiting, begins_with_minus, behind_value};

use crate::reader::{LARGEST_NUMBER, Reader, Signed, Spot};
use aig_rows::canonical_number;

/// Nothing is put for a variable that has no place.
fn put_value(bits: &mut [u8], value: Signed)
    ensures { bits.new ≡ with_value bits.old value }
{
    let number = value.number as usize;
    if number >= 2 && number - 2 < bits.len() {
        bits[number - 2] = if value.is_negative { b'0' } else { b'1' };
    }
}

/// Whether a minus is the first byte.
#[inline(always)]
fn begins_with_minus(bytes: &[u8]) -> bool
    ensures { result ≡ begins_with_minus bytes.now }
{
    match bytes {
        [first, ..] => *first == b'-',
        _ => false,
    }
}

/// What stands behind the number at the front: a space or a line feed, if it is one of the two at
/// all. Nothing else rests on it.
#[inline(always)]
#[tactic(auto, using(std::proofs::lemmas::Nat::trailing_le))]
fn likely_stop(bytes: &[u8]) -> u8
    ensures { (result ≡ 32) ⊎ (result ≡ 10) }
{
    if bytes.len() < 9 {
        return b' ';
    }
    let word = u64::from_le_bytes([
        bytes[0], bytes[1], bytes[2], bytes[3], bytes[4], bytes[5], bytes[6], bytes[7],
    ]);
    // digits have this bit, and neither spaces nor line feeds have it
    let stops = !word & 0x1010_1010_1010_1010;
    let end = stops.trailing_zeros() / 8;
    if bytes[end as usize] == b'\n' {
        b'\n'
    } else {
        b' '
    }
}

/// What is left from the next number on, if one is due: after a space, or first in a line.
#[inline(always)]
fn due_number(reader: Reader, bytes: &[u8]) -> Option<&[u8]>
    ensures due { (bits : List ℕ) → IfSome result (λ number.
        fold after (so_far reader bits) bytes.now
        ≡ fold after (so_far (awaiting reader.line) bits) number.now) }
    ensures awaiting { IfSome result (λ _. standing_at reader Space ≡ awaiting reader.line) }
    ensures within { IfSome result (λ number. length number.now ≤ length bytes.now) }
{
    if !reader.awaits_values() {
        return None;
    }
    match (reader.spot, bytes) {
        (Spot::Space, _) => Some(bytes),
        (Spot::LineStart, [b'v', b' ', number @ ..]) => Some(number),
        _ => None,
    }
}

/// The next value, the space or line feed behind it, and what follows that; if a number is due and
/// is spelled as solvers do.
#[inline(always)]
fn due_value(reader: Reader, bytes: &[u8]) -> Option<(Signed, u8, &[u8])>
    ensures read { (bits : List ℕ) → IfSome result (λ x.
        fold after (so_far reader bits) bytes.now
        ≡ fold after (so_far (behind_value reader x.1) (with_value bits x.0)) x.2.now) }
    ensures shorter { IfSome result (λ x. length x.2.now < length bytes.now) }
{
    let text = due_number(reader, bytes)?;
    let is_negative = begins_with_minus(text);
    let (_, digits) = text.split_at(usize::from(is_negative));
    let stop = likely_stop(digits);
    let (number, rest) = canonical_number(digits, stop)?;
    if number == 0 || number > LARGEST_NUMBER {
        return None;
    }
    let number = number as u32;
    let value = Signed {
        number,
        is_negative,
    };
    Some((value, stop, rest))
}

/// How many bytes stand before the first line feed.
fn line_length(bytes: &[u8]) -> usize
    ensures value { result ≡ position_or_len (λ byte. byte == 10) bytes.now }
    ensures within { result ≤ length bytes.now }
{
    bytes.iter().take_while(|byte| **byte != b'\n').count()
}

/// What follows the rest of a comment, up to its line feed, if the bytes stand in one.
fn behind_comment(reader: Reader, bytes: &[u8]) -> &[u8]
    ensures read { (bits : List ℕ) → fold after (so_far reader bits) bytes.now
        ≡ fold after (so_far reader bits) result.now }
    ensures within { length result.now ≤ length bytes.now }
{
    if let Spot::Comment = reader.spot {
        let (_, rest) = bytes.split_at(line_length(bytes));
        return rest;
    }
    bytes
}

/// Reads one byte.
fn read_byte(reader: Reader, bits: &mut [u8], byte: u8) -> Reader
    ensures { so_far result bits.new ≡ after (so_far reader bits.old) byte }
{
    let moved = reader.next(byte);
    if let Some(value) = moved.value {
        put_value(bits, value);
    }
    moved.reader
}

/// Reads the next bytes of an answer. The value of variable number 2 has the first place, as `0` or
/// `1`, and so on; number 1 is the constant of the clauses.
pub fn read_values(reader: Reader, bits: &mut [u8], bytes: &[u8]) -> Reader
    ensures { so_far result bits.new ≡ fold after (so_far reader bits.old) bytes.now }
{
    let mut reader = reader;
    let mut rest = bytes;
    while let Some((byte, behind)) = rest.split_first() {
        match due_value(reader, rest) {
            Some((value, stop, after)) => {
                put_value(bits, value);
                if stop == b'\n' {
                    reader = reader.on_next_line();
                } else {
                    reader.spot = Spot::Space;
                }
                rest = after;
            }
            None => {
                reader = read_byte(reader, bits, *byte);
                rest = behind_comment(reader, behind);
            }
        }
    }
    reader
}
