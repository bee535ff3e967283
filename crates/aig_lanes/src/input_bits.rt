//! The inputs of runs as bits. They are made run by run, where the lines of a stimulus stand one
//! after the other: a step of all runs takes a line of each, and those lie far apart.
ghost use Rattle.std.specs.Prelude.{◌≡◌, ◌+◌, ◌<◌, ◌≤◌, ℕ, IfOk, List, []};
ghost use Rattle.std.specs.Prelude.{length, slice_index_or, slice_set};
ghost use Rattle.std.specs.List.{All};
ghost use Rattle.aig_circuit.specs.declared.value.Val.{Val as Value};
ghost use Rattle.aig_lanes.specs.declared.run.Run.{Run as RunRecord};
ghost use Rattle.aig_lanes.specs.Parts.InputBits.{AreBlocks, HasLaneRoom, HasStep};
ghost use Rattle.aig_lanes.specs.Parts.InputBits.{HoldsBlock, HoldsBlocks, HoldsInputs};
ghost use Rattle.aig_lanes.specs.Parts.InputBits.{HoldsLane, IsWord, SameRooms, TellsOther};
ghost use Rattle.aig_lanes.specs.Parts.InputBits.{one_step, step_of, word_at};

use crate::sheets::longest_in;
use crate::vectors::{RunGroup, Vectors};
use aig_circuit::OutOfMemory;
use std::alloc::Global;
use std::marker::Model;
use std::simd::prelude::*;

/// Of 64 inputs of a step, which may be 1 and which may be 0: a bit for each.
#[derive(Clone, Copy)]
pub struct InputWord {
    pub one: u64,
    pub zero: u64,
}

/// The bits of 64 characters, from one on, where another character stands.
#[inline(always)]
fn other_than(text: &[u8], first: usize, character: u8) -> u64
    requires { first + 64 ≤ length text.now }
    ensures { TellsOther character first text.now result }
{
    u8x64::from_slice(&text[first..])
        .simd_ne(u8x64::splat(character))
        .to_bitmask()
}

/// The characters from one on, fewer than 64, and zeros after them.
fn pad(text: &[u8], first: usize) -> [u8; 64]
    requires { first ≤ length text.now × length text.now < first + 64 }
    ensures { (k : ℕ) → first + k < length text.now
        → slice_index_or result k 0 ≡ slice_index_or text.now (first + k) 0 }
{
    let (_, rest) = text.split_at(first);
    let mut characters = [b'0'; 64];
    characters[..rest.len()].copy_from_slice(rest);
    characters
}

/// The bits of 64 inputs, from one on, or of as many as there are.
#[inline(always)]
fn word_of(text: &[u8], first: usize) -> InputWord
    requires { first ≤ length text.now }
    ensures { IsWord first text.now result }
{
    if text.len() - first >= 64 {
        return InputWord {
            one: other_than(text, first, b'0'),
            zero: other_than(text, first, b'1'),
        };
    }
    let rest = pad(text, first);
    InputWord {
        one: other_than(&rest, 0, b'0'),
        zero: other_than(&rest, 0, b'1'),
    }
}

/// The bits of 64 inputs in the steps of a lane's runs, one run after the other.
#[derive(Drop)]
struct LaneBits {
    words: Vec<InputWord>,
}

impl Model for LaneBits {
    ghost use Rattle.std.specs.Prelude.{List};
    ghost use Rattle.aig_lanes.specs.declared.input_bits.InputWord.{InputWord};

    ghost Value = { List InputWord };

    ghost view = { λ b. b.words.items };
}

fn fill_words(words: &mut [InputWord], run: &Vectors, first: usize)
    requires inputs { All (λ (vector : List Value). first ≤ length vector) run.now.steps }
    requires room { length run.now.steps ≤ length words.old }
    ensures holds { HoldsInputs first run.now words.new }
    ensures size { length words.new ≡ length words.old }
{
    for step in 0..run.len() {
        words[step] = word_of(run.text(step), first);
    }
}

impl LaneBits {
    fn fill(&mut self, run: &Vectors, first: usize)
        requires inputs { All (λ (vector : List Value). first ≤ length vector) run.now.steps }
        requires room { length run.now.steps ≤ length self.old }
        ensures holds { HoldsInputs first run.now self.new }
        ensures size { length self.new ≡ length self.old }
    {
        fill_words(&mut self.words, run, first);
    }

    fn put_first_word(&mut self, word: InputWord)
        requires { 0 < length self.old }
        ensures { self.new ≡ slice_set self.old 0 word }
    {
        self.words[0] = word;
    }
}

/// Puts those of all runs.
fn fill_lanes(lanes: &mut [LaneBits], runs: &[Vectors], first: usize)
    requires lanes { length runs.now ≤ 256 × length lanes.old ≡ 256 }
    requires inputs { All (λ (run : RunRecord).
        All (λ (vector : List Value). first ≤ length vector) run.steps) runs.now }
    requires room { HasLaneRoom runs.now lanes.old }
    ensures holds { HoldsBlock first runs.now lanes.new }
    ensures count { length lanes.new ≡ length lanes.old }
    ensures sizes { (l : ℕ) → length (slice_index_or lanes.new l [])
        ≡ length (slice_index_or lanes.old l []) }
{
    for lane in 0..runs.len() {
        lanes[lane].fill(&runs[lane], first);
    }
}

/// Puts those of each step of a run, from an input on, into a lane of its own, and those of the
/// last one into the lanes that are left.
fn fill_firsts(lanes: &mut [LaneBits], run: &Vectors, first: usize)
    requires some { 0 < length run.now.steps }
    requires inputs { All (λ (vector : List Value). first ≤ length vector) run.now.steps }
    requires room { (l : ℕ) → l < length lanes.old → 0 < length (slice_index_or lanes.old l []) }
    ensures holds { (l : ℕ) → l < length lanes.old
        → HoldsInputs first (one_step (step_of run.now l)) (slice_index_or lanes.new l []) }
    ensures count { length lanes.new ≡ length lanes.old }
    ensures sizes { (l : ℕ) → length (slice_index_or lanes.new l [])
        ≡ length (slice_index_or lanes.old l []) }
{
    let last = run.len() - 1;
    for lane in 0..lanes.len() {
        lanes[lane].put_first_word(word_of(run.text(lane.min(last)), first));
    }
}

/// The bits of 64 inputs in the steps of 256 lanes.
#[derive(Drop)]
pub struct BlockBits {
    lanes: Vec<LaneBits>,
}

impl Model for BlockBits {
    ghost use Rattle.std.specs.Prelude.{◌≡◌, List, length};
    ghost use Rattle.aig_lanes.specs.declared.input_bits.InputWord.{InputWord};

    ghost Value = { List (List InputWord) };

    ghost view = { λ b. b.lanes.items };

    ghost invariant = { λ b. length b.lanes.items ≡ 256 };
}

fn new_lanes(alloc: Global, groups: &[RunGroup]) -> Result<Vec<LaneBits>, OutOfMemory>
    ensures count { IfOk result (λ lanes. length lanes.items ≡ 256) }
    ensures room { IfOk result (λ lanes.
        All (λ (runs : List RunRecord). HasLaneRoom runs lanes.items) groups.now) }
{
    let mut lanes = Vec::with_capacity(alloc, 256)?;
    for lane in 0..256usize {
        let steps = longest_in(groups, lane / 8);
        lanes.push(LaneBits {
            words: vec![in alloc; InputWord { one: 0, zero: 0 }; steps]?,
        })?;
    }
    Ok(lanes)
}

impl BlockBits {
    fn new(alloc: Global, groups: &[RunGroup]) -> Result<Self, OutOfMemory>
        ensures { IfOk result (λ bits. All
            (λ (runs : List RunRecord). HasLaneRoom runs bits) groups.now) }
    {
        Ok(BlockBits {
            lanes: new_lanes(alloc, groups)?,
        })
    }

    fn fill(&mut self, runs: &[Vectors], first: usize)
        requires lanes { length runs.now ≤ 256 }
        requires inputs { All (λ (run : RunRecord).
            All (λ (vector : List Value). first ≤ length vector) run.steps) runs.now }
        requires room { HasLaneRoom runs.now self.old }
        ensures holds { HoldsBlock first runs.now self.new }
        ensures sizes { (l : ℕ) → length (slice_index_or self.new l [])
            ≡ length (slice_index_or self.old l []) }
    {
        fill_lanes(&mut self.lanes, runs, first);
    }

    /// Puts the inputs of each step of a run into a lane of its own, as `fill_firsts` does.
    fn fill_across(&mut self, run: &Vectors, first: usize)
        requires some { 0 < length run.now.steps }
        requires inputs { All (λ (vector : List Value). first ≤ length vector) run.now.steps }
        requires room { HasStep self.old }
        ensures holds { (l : ℕ) → l < 256
            → HoldsInputs first (one_step (step_of run.now l)) (slice_index_or self.new l []) }
        ensures sizes { (l : ℕ) → length (slice_index_or self.new l [])
            ≡ length (slice_index_or self.old l []) }
    {
        fill_firsts(&mut self.lanes, run, first);
    }

    #[inline(always)]
    pub(crate) fn input_word(&self, lane: usize, step: usize) -> InputWord
        requires { lane < 256 }
        ensures { result ≡ word_at lane step self.now }
    {
        let words = &self.lanes[lane].words;
        if step < words.len() {
            return words[step];
        }
        InputWord { one: 0, zero: 0 }
    }
}

/// Room for so many inputs in the steps of the runs of these groups, 64 inputs after the other.
pub fn new_bits(
    alloc: Global,
    inputs: usize,
    groups: &[RunGroup],
) -> Result<Vec<BlockBits>, OutOfMemory>
    ensures count { IfOk result (λ bits. AreBlocks inputs (length bits.items)) }
    ensures room { IfOk result (λ bits. All
        (λ (runs : List RunRecord). All (HasLaneRoom runs) bits.items) groups.now) }
{
    let blocks = inputs.div_ceil(64);
    let mut bits = Vec::with_capacity(alloc, blocks)?;
    for block in 0..blocks {
        bits.push(BlockBits::new(alloc, groups)?)?;
    }
    Ok(bits)
}

/// Puts the inputs of all runs.
pub fn fill_bits(bits: &mut [BlockBits], runs: &[Vectors], inputs: usize)
    requires lanes { length runs.now ≤ 256 }
    requires inputs { All (λ (run : RunRecord).
        All (λ (vector : List Value). length vector ≡ inputs) run.steps) runs.now }
    requires blocks { AreBlocks inputs (length bits.old) }
    requires room { All (HasLaneRoom runs.now) bits.old }
    ensures holds { HoldsBlocks runs.now bits.new }
    ensures same { SameRooms bits.old bits.new }
{
    for block in 0..bits.len() {
        bits[block].fill(runs, 64 * block);
    }
}

/// Puts the inputs of each step of a run into a lane of its own, as the first step there, and those
/// of the last one into the lanes that are left.
pub fn fill_across(bits: &mut [BlockBits], run: &Vectors, inputs: usize)
    requires some { 0 < length run.now.steps }
    requires inputs { All (λ (vector : List Value). length vector ≡ inputs) run.now.steps }
    requires blocks { AreBlocks inputs (length bits.old) }
    requires room { All HasStep bits.old }
    ensures holds { (l : ℕ) → l < 256 → HoldsLane l (one_step (step_of run.now l)) bits.new }
    ensures same { SameRooms bits.old bits.new }
{
    for block in 0..bits.len() {
        bits[block].fill_across(run, 64 * block);
    }
}
