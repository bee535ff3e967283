//! Deltas: the numbers of gates in a binary file, in groups of seven bits, the lowest group first.
ghost use Rattle.std.specs.Prelude.{◌≡◌, ◌+◌, ◌*◌, ◌%◌, ◌++◌, ◌^◌, ◌<◌, ◌≤◌};
ghost use Rattle.std.specs.Prelude.{◌↔◌, ℕ, length, drop, take, None, Some};
ghost use Rattle.std.specs.Prelude.{IfSome};
ghost use Rattle.aig_rows.specs.Outcomes.{Gives};
ghost use Rattle.aig_binary.specs.Delta.{BeginsWithDelta, delta_at, shortest_delta};
ghost use Rattle.aig_binary.specs.declared.delta.TheConstants.{LONGEST};

use std::marker::Model;

/// How many bytes spell a number at most.
pub(crate) const LONGEST: usize = 5;

/// The bytes that spell a number, one to five.
#[derive(Drop)]
pub struct Delta {
    bytes: [u8; LONGEST],
    len: usize,
}

impl Model for Delta {
    ghost use Rattle.std.specs.Prelude.{List, ℕ, take, ◌<◌, ◌≤◌};
    ghost use Rattle.aig_binary.specs.declared.delta.TheConstants.{LONGEST};

    ghost Value = { List ℕ };

    ghost view = { λ d. take d.len d.bytes };

    ghost invariant = { λ d. (0 < d.len) × (d.len ≤ LONGEST) };
}

impl Delta {
    /// The bytes.
    #[inline]
    pub fn bytes(&self) -> &[u8]
        ensures value { result.now ≡ self.now }
        ensures some { 0 < length self.now }
        ensures short { length self.now ≤ 5 }
    {
        &self.bytes[..self.len]
    }
}

/// One and two bytes are distinguished without a branch: in a file they follow one another without
/// a rule, so a branch would often be predicted wrongly.
#[inline(always)]
fn write_short_delta(bytes: &mut [u8], at: usize, value: u32) -> usize
    requires low { value < 2 ^ 14 }
    requires room { at + 2 ≤ length bytes.old }
    ensures within { result ≤ at + 2 }
    ensures len { length bytes.new ≡ length bytes.old }
    ensures text { take result bytes.new ≡ take at bytes.old ++ shortest_delta value }
{
    let second = value / 128;
    let more = second.min(1);
    bytes[at] = (value % 128 + 128 * more) as u8;
    bytes[at + 1] = second as u8;
    at + 1 + more as usize
}

#[inline(always)]
fn write_long_delta(bytes: &mut [u8], at: usize, value: u32) -> usize
    requires { at + LONGEST ≤ length bytes.old }
    ensures within { result ≤ at + LONGEST }
    ensures len { length bytes.new ≡ length bytes.old }
    ensures text { take result bytes.new ≡ take at bytes.old ++ shortest_delta value }
{
    let mut end = at;
    let mut left = value;
    while left >= 128 {
        bytes[end] = (128 + left % 128) as u8;
        end += 1;
        left /= 128;
    }
    bytes[end] = left as u8;
    end + 1
}

/// Most gates have deltas below 2^14.
#[inline(always)]
pub(crate) fn write_delta(bytes: &mut [u8], at: usize, value: u32) -> usize
    requires { at + LONGEST ≤ length bytes.old }
    ensures within { result ≤ at + LONGEST }
    ensures len { length bytes.new ≡ length bytes.old }
    ensures text { take result bytes.new ≡ take at bytes.old ++ shortest_delta value }
{
    if value < 1 << 14 {
        write_short_delta(bytes, at, value)
    } else {
        write_long_delta(bytes, at, value)
    }
}

/// The shortest spelling of a number.
#[tactic(auto, using(crate::proofs::Deltas::Shortest::some_stored))]
pub fn put_delta(value: u32) -> Delta
    ensures { result ≡ shortest_delta value }
{
    let mut bytes = [0; LONGEST];
    let len = write_delta(&mut bytes, 0, value);
    Delta { bytes, len }
}

fn small_only(value: u64, count: usize) -> Option<(u32, usize)>
    ensures small { value < 2 ^ 32 → result ≡ Some (value, count) }
    ensures large { 2 ^ 32 ≤ value → result ≡ None }
{
    let Ok(value) = u32::try_from(value) else {
        return None;
    };
    Some((value, count))
}

/// Nearly all numbers of a file have one to four bytes, and are read without a loop.
#[inline(always)]
#[tactic(auto, using(crate::proofs::Deltas::Reading::short_deltas))]
pub(crate) fn get_short_delta(bytes: &[u8]) -> Option<(u32, usize)>
    requires { 4 ≤ length bytes.now }
    ensures delta { IfSome result (λ x. delta_at bytes.now ≡ Some (x.0, drop x.1 bytes.now)) }
    ensures within { IfSome result (λ x. x.1 ≤ length bytes.now) }
    ensures few { IfSome result (λ x. x.1 ≤ 4) }
{
    let first = u32::from(bytes[0]);
    if first < 128 {
        return Some((first, 1));
    }
    let second = u32::from(bytes[1]);
    if second < 128 {
        return Some((first % 128 + 128 * second, 2));
    }
    let third = u32::from(bytes[2]);
    if third < 128 {
        return Some((first % 128 + 128 * (second % 128 + 128 * third), 3));
    }
    let fourth = u32::from(bytes[3]);
    if fourth < 128 {
        let upper = second % 128 + 128 * (third % 128 + 128 * fourth);
        return Some((first % 128 + 128 * upper, 4));
    }
    None
}

/// The number at the front, in any count of bytes, and how many they are.
#[cold]
#[inline(never)]
fn get_groups(bytes: &[u8]) -> Option<(u32, usize)>
    ensures delta { Gives (λ x. (x.0, drop x.1 bytes.now)) result (delta_at bytes.now) }
    ensures within { IfSome result (λ x. x.1 ≤ length bytes.now) }
{
    let mut value = 0;
    let mut weight = 1;
    for at in 0..LONGEST {
        if at >= bytes.len() {
            return None;
        }
        let byte = bytes[at];
        value += u64::from(byte % 128) * weight;
        if byte < 128 {
            return small_only(value, at + 1);
        }
        weight *= 128;
    }
    None
}

/// The number at the front, and how many bytes spell it. There is none where no front of the bytes
/// spells a number below 2^32 in one to five bytes.
#[inline(always)]
pub fn get_delta(bytes: &[u8]) -> Option<(u32, usize)>
    ensures delta { Gives (λ x. (x.0, drop x.1 bytes.now)) result (delta_at bytes.now) }
    ensures spelled { (value count : ℕ) → (result ≡ Some (value, count))
        ↔ BeginsWithDelta bytes.now value count }
{
    if bytes.len() >= 4 {
        if let Some(short) = get_short_delta(bytes) {
            return Some(short);
        }
    }
    get_groups(bytes)
}
