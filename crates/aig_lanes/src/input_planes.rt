//! Inputs of a step, of which there are bits, put into planes.
ghost use Rattle.std.specs.Prelude.{◌≡◌, ◌+◌, ◌-◌, ◌*◌, ◌/◌, ◌%◌, ◌^◌, ◌<◌};
ghost use Rattle.std.specs.Prelude.{◌≤◌, ℕ, List, length, slice_index_or};
ghost use Rattle.std.specs.Prelude.{slice_set, take};
ghost use Rattle.std.specs.Int.{bit_at};
ghost use Rattle.std.specs.List.{All};
ghost use Rattle.aig_circuit.specs.declared.value.Val.{Val as Value};
ghost use Rattle.aig_circuit.specs.declared.value.Val.TheVariants.{Zero};
ghost use Rattle.aig_lanes.specs.declared.input_bits.InputWord.{InputWord as InputWordRecord};
ghost use Rattle.aig_lanes.specs.Parts.InputBits.{AreBlocks, AreBytes, AreWords};
ghost use Rattle.aig_lanes.specs.Parts.InputBits.{IsWord, byte_in, word_at};
ghost use Rattle.aig_places.specs.Lanes.{IsLane, IsPlane, bit_in};
ghost use Rattle.aig_step.specs.Parts.Tables.{placed};
ghost use Rattle.aig_step.specs.TraceText.{values_text};

use crate::input_bits::BlockBits;
use aig_circuit::Val;
use aig_places::{Plane, put_in_all_lanes, put_pair};
use std::simd::Simd;
use std::simd::prelude::*;

/// Eight inputs in all lanes: a byte for each lane, with a bit for each input. Eight bytes more
/// stand after them, so that the same lane of these inputs and of the next do not share a place of
/// the processor's cache.
type Eight = [u8; 264];

#[inline(always)]
fn rows_at(bits: &BlockBits, step: usize, lane: usize) -> ([u64; 8], [u64; 8])
    requires { lane + 8 ≤ 256 }
    ensures ones { (r : ℕ) → r < 8 → slice_index_or result.0 r 0
        ≡ (word_at (lane + r) step bits.now).one }
    ensures zeros { (r : ℕ) → r < 8 → slice_index_or result.1 r 0
        ≡ (word_at (lane + r) step bits.now).zero }
{
    let mut ones = [0; 8];
    let mut zeros = [0; 8];
    for r in 0..8 {
        let word = bits.input_word(lane + r, step);
        ones[r] = word.one;
        zeros[r] = word.zero;
    }
    (ones, zeros)
}

/// Eight rows of eight bytes by columns: the first byte of each row, then the second, and so on.
#[inline(always)]
fn bytes_by_columns(rows: &[u64; 8]) -> [u8; 64]
    requires { All (λ (row : ℕ). row < 2 ^ 64) rows.now }
    ensures { (r k : ℕ) → r < 8 → k < 8
        → slice_index_or result (8 * k + r) 0 ≡ slice_index_or rows.now r 0 / 256 ^ k % 256 }
{
    Simd::from_array(*rows)
        .to_le_bytes()
        .swizzle::<64>([
            0, 8, 16, 24, 32, 40, 48, 56, 1, 9, 17, 25, 33, 41, 49, 57, 2, 10, 18, 26, 34, 42, 50,
            58, 3, 11, 19, 27, 35, 43, 51, 59, 4, 12, 20, 28, 36, 44, 52, 60, 5, 13, 21, 29, 37,
            45, 53, 61, 6, 14, 22, 30, 38, 46, 54, 62, 7, 15, 23, 31, 39, 47, 55, 63,
        ])
        .to_array()
}

#[inline(always)]
fn put_square(rows: &[u64; 8], eights: &mut [Eight], lane: usize)
    requires eight { length eights.old ≡ 8 }
    requires lane { lane + 8 ≤ 256 }
    ensures own { (k l : ℕ) → k < 8 → lane ≤ l → l < lane + 8
        → byte_in k l eights.new ≡ slice_index_or rows.now (l - lane) 0 / 256 ^ k % 256 }
    ensures lanes { (k l : ℕ) → l < lane → byte_in k l eights.new ≡ byte_in k l eights.old }
    ensures size { length eights.new ≡ 8 }
{
    let columns = bytes_by_columns(rows);
    for k in 0..8 {
        eights[k][lane..lane + 8].copy_from_slice(&columns[8 * k..8 * k + 8]);
    }
}

/// Puts 64 inputs of all lanes: which may be 1, and which may be 0.
fn put_squares(bits: &BlockBits, step: usize, ones: &mut [Eight], zeros: &mut [Eight])
    requires ones { length ones.old ≡ 8 }
    requires zeros { length zeros.old ≡ 8 }
    ensures ones_size { length ones.new ≡ 8 }
    ensures zeros_size { length zeros.new ≡ 8 }
    ensures bytes { (l : ℕ) → l < 256 → AreBytes l (word_at l step bits.now) ones.new zeros.new }
{
    for eight in 0..32 {
        let (one, zero) = rows_at(bits, step, 8 * eight);
        put_square(&one, ones, 8 * eight);
        put_square(&zero, zeros, 8 * eight);
    }
}

#[inline(always)]
fn lanes_with(eight: &Eight, first: usize, place: usize) -> u64
    requires first { first + 64 ≤ 256 }
    requires place { place < 8 }
    ensures { (k : ℕ) → k < 64 → bit_at result k
        ≡ bit_at (slice_index_or eight.now (first + k) 0) place }
{
    (u8x64::from_slice(&eight[first..]) & u8x64::splat(1 << place))
        .simd_ne(u8x64::splat(0))
        .to_bitmask()
}

#[inline(always)]
fn plane_with(eight: &Eight, place: usize) -> Plane
    requires { place < 8 }
    ensures plane { IsPlane result }
    ensures bits { (l : ℕ) → l < 256 → bit_in l result
        ≡ bit_at (slice_index_or eight.now l 0) place }
{
    Simd::from_array([
        lanes_with(eight, 0, place),
        lanes_with(eight, 64, place),
        lanes_with(eight, 128, place),
        lanes_with(eight, 192, place),
    ])
}

fn put_planes(ones: &[Eight], zeros: &[Eight], first: usize, count: usize, planes: &mut [Plane])
    requires eight { length ones.now ≡ 8 × length zeros.now ≡ 8 }
    requires count { count ≤ 64 }
    requires room { 2 * (1 + first + count) ≤ length planes.old }
    ensures size { length planes.new ≡ length planes.old }
    ensures lanes { (l : ℕ) (word : InputWordRecord) (values vector : List Value) → l < 256
        → AreBytes l word ones.now zeros.now → IsWord first (values_text vector) word
        → first + count ≤ length vector → IsLane l planes.old (placed 1 (take first vector) values)
        → IsLane l planes.new (placed 1 (take (first + count) vector) values) }
{
    for i in 0..count {
        let one = plane_with(&ones[i / 8], i % 8);
        let zero = plane_with(&zeros[i / 8], i % 8);
        put_pair(planes, 1 + (first + i), one, zero);
    }
}

fn put_block(bits: &BlockBits, step: usize, first: usize, count: usize, planes: &mut [Plane])
    requires count { count ≤ 64 }
    requires room { 2 * (1 + first + count) ≤ length planes.old }
    ensures size { length planes.new ≡ length planes.old }
    ensures lanes { (l : ℕ) (values vector : List Value) → l < 256
        → IsWord first (values_text vector) (word_at l step bits.now)
        → first + count ≤ length vector → IsLane l planes.old (placed 1 (take first vector) values)
        → IsLane l planes.new (placed 1 (take (first + count) vector) values) }
{
    let mut ones = [[0; 264]; 8];
    let mut zeros = [[0; 264]; 8];
    put_squares(bits, step, &mut ones, &mut zeros);
    put_planes(&ones, &zeros, first, count, planes);
}

/// Puts the constant, and the inputs of each run that has this step.
pub fn put_vectors(bits: &[BlockBits], inputs: usize, step: usize, planes: &mut [Plane])
    requires blocks { AreBlocks inputs (length bits.now) }
    requires room { 2 * (1 + inputs) ≤ length planes.old }
    ensures { (l : ℕ) (vector values : List Value) → l < 256 → length vector ≡ inputs
        → AreWords l step vector bits.now → IsLane l planes.old values
        → IsLane l planes.new (placed 1 vector (slice_set values 0 Zero)) }
{
    put_in_all_lanes(planes, 0, Val::Zero);
    for block in 0..bits.len() {
        let first = 64 * block;
        let left = inputs - first;
        let count = if left < 64 { left } else { 64 };
        put_block(&bits[block], step, first, count, planes);
    }
}
