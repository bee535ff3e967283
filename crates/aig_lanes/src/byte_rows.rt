//! Rows of bytes: what literals are in eight lanes.
ghost use Rattle.std.specs.Prelude.{◌≡◌, ◌+◌, ◌++◌, ◌<◌, ◌≤◌, ◌^◌, ℕ, IfOk, drop, length, take};
ghost use Rattle.std.specs.Int.{bit_at};
ghost use Rattle.aig_lanes.specs.Parts.Sheets.{bytes_text, character_by, overwritten};

use aig_circuit::OutOfMemory;
use std::alloc::Global;
use std::marker::Model;

/// Two bytes for each literal, with a bit for each of eight lanes: whether the literal may be 1
/// there, and whether it may be 0.
#[derive(Drop)]
pub(crate) struct ByteRows {
    ones: Vec<u8>,
    zeros: Vec<u8>,
}

impl Model for ByteRows {
    ghost use Rattle.std.specs.Prelude.{◌≡◌, length};
    ghost use Rattle.aig_lanes.specs.Parts.Sheets.{BytesText};

    ghost Value = { BytesText };

    ghost view = { λ o. record { ones = o.ones.items; zeros = o.zeros.items } };

    ghost invariant = { λ o. length o.ones.items ≡ length o.zeros.items };
}

/// The character of a lane by the bytes of a literal. The lane has this bit.
#[inline(always)]
fn lane_character(ones: u8, zeros: u8, bit: u8) -> u8
    ensures { (place : ℕ) → bit ≡ 2 ^ place
        → result ≡ character_by (bit_at ones place) (bit_at zeros place) }
{
    if ones & bit == 0 {
        b'0'
    } else if zeros & bit == 0 {
        b'1'
    } else {
        b'x'
    }
}

#[inline(always)]
fn write_bits(line: &mut [u8], at: usize, ones: &[u8], zeros: &[u8], place: usize)
    requires lane { place < 8 }
    requires room { at + length ones.now ≤ length line.old }
    requires same { length ones.now ≡ length zeros.now }
    ensures { take (at + length ones.now) line.new
        ≡ take at line.old ++ bytes_text place (record { ones = ones.now; zeros = zeros.now }) }
{
    let bit = 1u8 << place;
    for i in 0..ones.len() {
        line[at + i] = lane_character(ones[i], zeros[i], bit);
    }
}

/// Puts bytes over others, from a place on.
#[inline(always)]
#[tactic(auto, using(crate::proofs::Side::Eights::overwritten_whole))]
fn overwrite(bytes: &mut [u8], at: usize, part: &[u8])
    requires { at + length part.now ≤ length bytes.old }
    ensures { bytes.new ≡ overwritten at part.now bytes.old }
{
    bytes[at..at + part.len()].copy_from_slice(part);
}

impl ByteRows {
    pub(crate) fn new(alloc: Global, count: usize) -> Result<Self, OutOfMemory>
        ensures { IfOk result (λ octet. (place : ℕ) → length (bytes_text place octet) ≡ count) }
    {
        Ok(ByteRows {
            ones: vec![in alloc; 0; count]?,
            zeros: vec![in alloc; 0; count]?,
        })
    }

    /// Puts the bytes of the first of these literals, where there are not places for all.
    #[inline(never)]
    fn put_first(&mut self, at: usize, ones: &[u8], zeros: &[u8])
        requires same { length ones.now ≡ length zeros.now }
        requires few { (place : ℕ) → length (bytes_text place self.old) ≤ at + length ones.now }
        ensures { (place : ℕ) → bytes_text place self.new
            ≡ overwritten at (bytes_text place (record { ones = ones.now; zeros = zeros.now }))
            (bytes_text place self.old) }
    {
        let count = self.ones.len();
        if at < count {
            overwrite(&mut self.ones, at, &ones[..count - at]);
            overwrite(&mut self.zeros, at, &zeros[..count - at]);
        }
    }

    /// Puts the bytes of literals, from a place on, as far as there are places.
    #[inline(always)]
    #[tactic(auto, using(crate::proofs::Side::Eights::put_rows))]
    pub(crate) fn put(&mut self, at: usize, ones: &[u8], zeros: &[u8])
        requires { length ones.now ≡ length zeros.now }
        ensures { (place : ℕ) → bytes_text place self.new
            ≡ overwritten at (bytes_text place (record { ones = ones.now; zeros = zeros.now }))
            (bytes_text place self.old) }
    {
        let count = self.ones.len();
        if at < count && at + ones.len() <= count {
            overwrite(&mut self.ones, at, ones);
            overwrite(&mut self.zeros, at, zeros);
        } else {
            self.put_first(at, ones, zeros);
        }
    }

    #[inline(always)]
    #[tactic(auto, using(crate::proofs::Side::Sheets::written_rows))]
    pub(crate) fn write(&self, line: &mut [u8], at: usize, from: usize, count: usize, place: usize)
        requires lane { place < 8 }
        requires has { from + count ≤ length (bytes_text place self.now) }
        requires room { at + count ≤ length line.old }
        ensures { take (at + count) line.new
            ≡ take at line.old ++ take count (drop from (bytes_text place self.now)) }
    {
        let (_, ones) = self.ones.split_at(from);
        let (ones, _) = ones.split_at(count);
        let (_, zeros) = self.zeros.split_at(from);
        let (zeros, _) = zeros.split_at(count);
        write_bits(line, at, ones, zeros, place);
    }
}
