//! Numbers of any length, and lines of numbers.
ghost use Rattle.std.specs.Prelude.{◌≡◌, ◌==◌, ◌&&◌, ◌+◌, ◌-◌, ◌*◌, ◌^◌, ◌<◌, ◌≤◌};
ghost use Rattle.std.specs.Prelude.{◌∷◌, false, length, take};
ghost use Rattle.std.specs.Prelude.{IfSome, slice_index};
ghost use Rattle.std.specs.List.{prefix_len};
ghost use Rattle.aig_rows.specs.Spelling.{is_digit, is_space, value_of};
ghost use Rattle.aig_rows.specs.CanonicalNumber.{canonical_before, is_padded, number_before};
ghost use Rattle.aig_rows.specs.Scanning.{number_at, after_gap, is_line_end};
ghost use Rattle.aig_rows.specs.Scanning.{more_numbers_at, numbers_at};
ghost use Rattle.aig_rows.specs.Parts.Plain.{BeginsWithNumber, EndsPlainly};
ghost use Rattle.aig_rows.specs.Kept.{kept, kept_numbers, kept_first};
ghost use Rattle.aig_rows.specs.Outcomes.{Gives};

use crate::word::{digits_of_word, first_word};
use aig_lines::Line;
use core::dec2flt::read_digits;

/// Numbers from here on are all above each limit and above each literal that is carried from row to
/// row, and only whether they are odd is kept of them.
const LARGE: u64 = 1 << 36;

/// Canonical numbers from here on are all taken as this one.
const FAR: u64 = 1 << 33;

/// How many digits always spell a number of 64 bits.
const LONGEST: usize = 18;

/// What is kept of a number with one more digit.
fn with_digit(value: u64, digit: u8) -> u64
    requires value { value ≤ 2 ^ 36 + 1 }
    requires digit { digit < 10 }
    ensures { result ≡ kept (10 * value + digit) }
{
    let longer = 10 * value + u64::from(digit);
    if longer < LARGE {
        longer
    } else {
        LARGE + longer % 2
    }
}

/// What is kept of the number that the digits at the front spell, and how many they are.
fn leading_digits(bytes: &[u8]) -> (u64, usize)
    ensures value { result.0 ≡ kept (value_of (take (prefix_len is_digit bytes.now) bytes.now)) }
    ensures count { result.1 ≡ prefix_len is_digit bytes.now }
{
    let mut value = 0;
    for (at, byte) in bytes.iter().enumerate() {
        if !byte.is_ascii_digit() {
            return (value, at);
        }
        value = with_digit(value, *byte - b'0');
    }
    (value, bytes.len())
}

/// How many spaces stand at the front.
fn leading_spaces(bytes: &[u8]) -> usize
    ensures value { result ≡ prefix_len is_space bytes.now }
    ensures within { result ≤ length bytes.now }
{
    bytes.iter().take_while(|byte| **byte == b' ').count()
}

/// What is kept of the number at the front, and what follows it.
#[tactic(auto, unfolding(crate::specs::Scanning::number_at))]
pub fn leading_number(bytes: &[u8]) -> Option<(u64, &[u8])>
    ensures { Gives (λ x. (x.0, x.1.now)) result (kept_first (number_at bytes.now)) }
{
    let (value, count) = leading_digits(bytes);
    if count == 0 {
        return None;
    }
    let (_, rest) = bytes.split_at(count);
    Some((value, rest))
}

/// What follows one or more spaces.
#[tactic(auto, unfolding(crate::specs::Scanning::after_gap))]
fn skip_gap(bytes: &[u8]) -> Option<&[u8]>
    ensures { Gives (λ x. x.now) result (after_gap bytes.now) }
{
    let count = leading_spaces(bytes);
    if count == 0 {
        return None;
    }
    let (_, rest) = bytes.split_at(count);
    Some(rest)
}

/// Whether a line may end so.
#[tactic(auto, unfolding(crate::specs::Scanning::is_line_end))]
pub fn ends_line(bytes: &[u8], ended: bool) -> bool
    ensures { result ≡ is_line_end ended bytes.now }
{
    let (_, rest) = bytes.split_at(leading_spaces(bytes));
    rest.is_empty() || (ended && rest.len() == 1 && rest[0] == b'\r')
}

/// Whether a line may end so, where so many more numbers are due.
fn may_end(bytes: &[u8], ended: bool, due: usize) -> bool
    ensures { result ≡ ((due == 0) && is_line_end ended bytes.now) }
{
    due == 0 && ends_line(bytes, ended)
}

/// What is kept of the numbers that stand there, each after one or more spaces, where the line ends
/// after them. There are at least `least` of them; those that are left out are 0.
#[tactic(auto, unfolding(crate::specs::Scanning::more_numbers_at))]
pub fn more_numbers<const N: usize>(text: &[u8], ended: bool, least: usize) -> Option<[u64; N]>
    ensures { Gives (λ x. x) result (kept_numbers (more_numbers_at ended least N text.now)) }
{
    let mut numbers = [0; N];
    let mut rest = text;
    for at in 0..N {
        if may_end(rest, ended, least.saturating_sub(at)) {
            return Some(numbers);
        }
        let digits = skip_gap(rest)?;
        let (value, after) = leading_number(digits)?;
        numbers[at] = value;
        rest = after;
    }
    if ends_line(rest, ended) {
        Some(numbers)
    } else {
        None
    }
}

/// What is kept of a number and of others, where the line ends after them. There are at least
/// `least` others; those that are left out are 0.
#[tactic(auto, unfolding(crate::specs::Scanning::numbers_at))]
pub(crate) fn numbers<const N: usize>(line: Line, least: usize) -> Option<(u64, [u64; N])>
    ensures { Gives (λ x. x.0 ∷ x.1) result
        (kept_numbers (numbers_at line.entry.ended least N line.entry.text.now)) }
{
    let (first, rest) = leading_number(line.text)?;
    let others = more_numbers::<N>(rest, line.ended, least)?;
    Some((first, others))
}

/// A number of at most 18 digits at the front, the byte after it, and what follows that.
#[inline(always)]
fn plain_number(bytes: &[u8]) -> Option<(u64, u8, &[u8])>
    ensures { IfSome result (λ x. BeginsWithNumber bytes.now x.0 (x.1 ∷ x.2.now)) }
{
    let (end, value) = read_digits(bytes, 0, 0);
    if end == 0 || end > LONGEST || end >= bytes.len() {
        return None;
    }
    let behind = bytes[end];
    let (_, rest) = bytes.split_at(end + 1);
    Some((value, behind, rest))
}

/// How many digits stand at the front, where they are one to eight and nine bytes stand there.
#[inline(always)]
#[tactic(auto, using(std::proofs::lemmas::Nat::trailing_le))]
fn short_end(bytes: &[u8]) -> Option<u32>
    ensures { IfSome result (λ end. (0 < end) × (end ≤ 8) × (8 < length bytes.now)) }
{
    if bytes.len() < 9 {
        return None;
    }
    // digits have this bit, and neither spaces nor line feeds have it
    let stops = !first_word(bytes) & 0x1010_1010_1010_1010;
    let end = stops.trailing_zeros() / 8;
    if end == 0 {
        return None;
    }
    Some(end)
}

/// The number of so many digits at the front, the byte after it, and what follows that.
#[inline(always)]
fn short_at(bytes: &[u8], end: u32) -> Option<(u64, u8, &[u8])>
    requires some { 0 < end }
    requires few { end ≤ 8 }
    requires within { 8 < length bytes.now }
    ensures number { IfSome result (λ x. BeginsWithNumber bytes.now x.0 (x.1 ∷ x.2.now)) }
    ensures behind { IfSome result (λ x. x.1 ≡ slice_index bytes.now end) }
{
    let value = digits_of_word(first_word(bytes), end)?;
    let behind = bytes[end as usize];
    let (_, rest) = bytes.split_at(end as usize + 1);
    Some((value, behind, rest))
}

/// A number of one to eight digits at the front, the byte after it, and what follows that, where
/// nine bytes stand there.
#[inline(always)]
fn short_number(bytes: &[u8]) -> Option<(u64, u8, &[u8])>
    ensures { IfSome result (λ x. BeginsWithNumber bytes.now x.0 (x.1 ∷ x.2.now)) }
{
    let end = short_end(bytes)?;
    short_at(bytes, end)
}

/// A number of one to eight digits at the front with this byte after it, and what follows that,
/// where nine bytes stand there.
#[inline(always)]
pub(crate) fn short_number_before(bytes: &[u8], stop: u8) -> Option<(u64, &[u8])>
    ensures { IfSome result (λ x. BeginsWithNumber bytes.now x.0 (stop ∷ x.1.now)) }
{
    let end = short_end(bytes)?;
    // before its digits are looked at, so that little is to be kept where another byte is tried
    if bytes[end as usize] != stop {
        return None;
    }
    let (value, _, rest) = short_at(bytes, end)?;
    Some((value, rest))
}

/// The number at the front, the byte after it, and what follows that, where it is short or else
/// where it has not too many digits.
#[inline(always)]
pub(crate) fn front_number(bytes: &[u8], short: bool) -> Option<(u64, u8, &[u8])>
    ensures { IfSome result (λ x. BeginsWithNumber bytes.now x.0 (x.1 ∷ x.2.now)) }
{
    if short {
        short_number(bytes)
    } else {
        plain_number(bytes)
    }
}

/// Numbers at the front, each after one space, the line feed after them, and what follows it. The
/// first byte is given apart. There are at least `least` numbers; those that are left out are 0.
#[inline(always)]
pub(crate) fn plain_numbers<const N: usize>(
    byte: u8,
    bytes: &[u8],
    least: usize,
    short: bool,
) -> Option<([u64; N], &[u8])>
    requires { least ≤ N }
    ensures are { IfSome result (λ x. EndsPlainly least (byte ∷ bytes.now) x.0 x.1.now) }
    ensures long { IfSome result (λ x. length x.0 ≡ N) }
{
    let mut numbers = [0; N];
    let mut behind = byte;
    let mut rest = bytes;
    for at in 0..N {
        if least <= at && behind == b'\n' {
            return Some((numbers, rest));
        }
        if behind != b' ' {
            return None;
        }
        let (number, next, after) = front_number(rest, short)?;
        numbers[at] = number;
        behind = next;
        rest = after;
    }
    if behind != b'\n' {
        return None;
    }
    Some((numbers, rest))
}

/// A number of at most 18 digits at the front with this byte after it, and what follows that.
#[inline(always)]
fn plain_number_before(bytes: &[u8], stop: u8) -> Option<(u64, &[u8])>
    ensures { IfSome result (λ x. BeginsWithNumber bytes.now x.0 (stop ∷ x.1.now)) }
{
    let short = short_number_before(bytes, stop);
    if short.is_some() {
        return short;
    }
    let (value, behind, rest) = plain_number(bytes)?;
    if behind != stop {
        return None;
    }
    Some((value, rest))
}

/// The number at the front, however spelled, where this byte is after it; and what follows that.
#[cold]
#[inline(never)]
#[tactic(auto, unfolding(crate::specs::CanonicalNumber::number_before))]
fn long_number(bytes: &[u8], stop: u8) -> Option<(u64, &[u8])>
    ensures { Gives (λ x. (x.0, x.1.now)) result (number_before stop bytes.now) }
{
    let (value, end) = leading_number(bytes)?;
    match end.split_first() {
        Some((first, rest)) if *first == stop => Some((value.min(FAR), rest)),
        _ => None,
    }
}

/// Whether a zero stands at the front, with another digit after it.
#[inline(always)]
fn is_padded(bytes: &[u8]) -> bool
    ensures { result ≡ is_padded bytes.now }
{
    match bytes {
        [first, next, ..] => next.is_ascii_digit() && *first == b'0',
        _ => false,
    }
}

/// The canonical number at the front, where this byte stands after it; and what follows the byte.
/// Numbers from 2^33 on are above each limit, and are all taken as 2^33.
#[inline(always)]
#[tactic(auto, unfolding(crate::specs::CanonicalNumber::canonical_before))]
pub fn canonical_number(bytes: &[u8], stop: u8) -> Option<(u64, &[u8])>
    requires { is_digit stop ≡ false }
    ensures { Gives (λ x. (x.0, x.1.now)) result (canonical_before stop bytes.now) }
{
    if is_padded(bytes) {
        return None;
    }
    match plain_number_before(bytes, stop) {
        Some((value, rest)) => Some((value.min(FAR), rest)),
        None => long_number(bytes, stop),
    }
}
