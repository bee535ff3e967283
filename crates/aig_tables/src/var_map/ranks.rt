//! Places of indices that are announced.
ghost use Rattle.std.specs.Prelude.{◌≡◌, ◌==◌, ◌≤◌, ◌^◌, [], length, true};
ghost use Rattle.aig_tables.specs.Parts.Ranks.{is_announced, rank_of, IsRanking};

use aig_circuit::{Circuit, Entry, LARGEST, Listing, Var};
use std::alloc::{AllocError, Global};

/// 32 indices: a bit for each that is announced, and how many bits the words before have.
#[derive(Clone, Copy)]
struct Word {
    bits: u32,
    before: u32,
}

/// Indices that are announced. The place of each is how many smaller ones are announced, so there
/// are places for them alone.
#[derive(Drop)]
pub struct Ranks {
    words: Vec<Word>,
    count: usize,
    ghost ranking: { IsRanking words.items (length words.items) count },
}

/// Announces an index, if there is a word for it.
fn announce(words: &mut [Word], var: Var) {
    let at = (var.0 / 32) as usize;
    if at < words.len() {
        words[at].bits |= 1 << (var.0 % 32);
    }
}

/// Announces what the entries of a section define.
fn announce_all<T: Entry>(words: &mut [Word], entries: &Listing<T>) {
    for entry in entries.as_slice() {
        if let Some(var) = entry.definition() {
            announce(words, var);
        }
    }
}

/// Lets each word count the bits before it, and answers how many bits there are.
fn count_bits(words: &mut [Word]) -> u32
    requires { length words.old ≤ 2 ^ 26 }
    ensures { IsRanking words.new (length words.new) result }
{
    let mut before = 0;
    for word in words.iter_mut() {
        word.before = before;
        before += word.bits.count_ones();
    }
    before
}

impl Ranks {
    pub(super) fn none(alloc: Global) -> Self
        ensures words { result.words.items ≡ [] }
        ensures count { result.count ≡ 0 }
    {
        Ranks {
            words: Vec::new(alloc),
            count: 0,
        }
    }

    /// What a circuit defines is announced. Nothing is promised of it: who relies on it asks `has`.
    pub fn of_circuit(alloc: Global, circuit: &Circuit) -> Result<Self, AllocError> {
        let count = circuit.max_var.min(LARGEST) / 32 + 1;
        let mut words = vec![in alloc; Word { bits: 0, before: 0 }; count as usize]?;
        announce_all(words.as_mut_slice(), &circuit.inputs);
        announce_all(words.as_mut_slice(), &circuit.latches);
        announce_all(words.as_mut_slice(), &circuit.gates);
        let count = count_bits(words.as_mut_slice()) as usize;
        Ok(Ranks { words, count })
    }

    /// How many places there are.
    pub fn count(&self) -> usize
        ensures { result ≡ self.now.count }
    {
        self.count
    }

    /// Whether there is room for no index.
    #[inline(always)]
    pub(super) fn is_empty(&self) -> bool
        ensures { result ≡ (length self.now.words.items == 0) }
    {
        self.words.is_empty()
    }

    /// Whether an index is announced.
    #[inline(always)]
    pub fn has(&self, index: usize) -> bool
        ensures { result ≡ is_announced self.now.words.items index }
    {
        index / 32 < self.words.len() && self.words[index / 32].bits >> (index % 32) & 1 == 1
    }

    /// The place of an index, below their count: that of no other one.
    #[inline(always)]
    pub fn rank(&self, index: usize) -> usize
        requires { is_announced self.now.words.items index ≡ true }
        ensures { result ≡ rank_of self.now.words.items index }
    {
        let word = self.words[index / 32];
        let smaller = word.bits & ((1 << (index % 32)) - 1);
        word.before as usize + smaller.count_ones() as usize
    }
}
