//! The gates that may be taken.
ghost use Rattle.std.specs.Prelude.{◌≡◌, ◌≢◌, ◌==◌, ◌||◌, ◌&&◌, ◌+◌, ◌/◌};
ghost use Rattle.std.specs.Prelude.{◌<◌, ◌≤◌, ℕ, true, false, not, length};
ghost use Rattle.std.specs.Prelude.{nat_lt, slice_index, if◌then◌else◌, IfOk};
ghost use Rattle.std.specs.Int.{bit_at};
ghost use Rattle.std.specs.Option.{IfSome, IfNone};
ghost use Rattle.aig_tables.specs.Parts.Marks.{is_marked};
ghost use Rattle.aig_topo.specs.Ready.{has, room, is_in_tree, first_bit, Tells, IsTree};

use aig_circuit::LARGEST;
use std::alloc::{AllocError, Global};
use std::marker::Model;

/// A set of gates, by their positions, that gives the least one first. The minimum is kept outside
/// the tree, so that a gate that comes where there is none, and goes before another comes, never
/// goes through the tree. The tree, which has the others, is made of words, where below bit b
/// stands word b + 1. Each bit of the lowest level is a gate, and each bit above is set if the word
/// below it has any.
#[derive(Drop)]
pub(super) struct Ready {
    least: Option<u32>,
    words: Vec<u64>,
    /// The bit of the first gate.
    first: usize,
    /// How many levels are above the lowest.
    levels: u32,
}

impl Model for Ready {
    ghost use Rattle.aig_topo.specs.Ready.{Tree, tree_code, IsReady};

    ghost Value = { Tree };

    ghost coded = { tree_code };

    ghost view = { λ r. record { least = r.least; words = r.words.items; first = r.first } };

    ghost invariant = { λ r. IsReady r.least r.words.items r.first r.levels };
}

#[inline(always)]
fn with_bit(word: u64, place: usize, on: bool) -> u64
    requires { place < 64 }
    ensures bits { (i : ℕ) → i < 64 → (bit_at result i == 1)
        ≡ (if i == place then on else (bit_at word i == 1)) }
    ensures some { on ≡ true → 0 < result }
    ensures no_more { on ≡ false → result ≤ word }
{
    let mask = 1 << place;
    if on { word | mask } else { word & !mask }
}

/// Sets or clears a bit. If its word has no other, the bit above is set or cleared too.
fn tell(words: &mut [u64], bit: usize, on: bool)
    requires there { bit / 64 < length words.old }
    requires told { (b : ℕ) → b + 1 < length words.old → b ≢ bit → Tells words.old b }
    requires below { bit + 1 < length words.old → on ≡ nat_lt 0 (slice_index words.old (bit + 1)) }
    ensures told { (b : ℕ) → b + 1 < length words.old → Tells words.new b }
    ensures lowest { (b : ℕ) → length words.old ≤ b + 1
        → is_marked words.new b ≡ (if b == bit then on else is_marked words.old b) }
{
    let at = bit / 64;
    let before = words[at];
    let after = with_bit(before, bit % 64, on);
    words[at] = after;
    if at == 0 {
        return;
    }
    let others = if on { before } else { after };
    if others != 0 {
        return;
    }
    tell(words, at - 1, on);
}

fn least_bit(words: &[u64], levels: u32) -> usize
    requires tree { IsTree words.now (first_bit levels) levels }
    requires some { 0 < slice_index words.now 0 }
    ensures there { first_bit levels ≤ result }
    ensures set { is_marked words.now result ≡ true }
    ensures least { (b : ℕ) → first_bit levels ≤ b → is_marked words.now b ≡ true → result ≤ b }
{
    let mut bit = words[0].trailing_zeros() as usize;
    for _ in 0..levels {
        let below = bit + 1;
        bit = 64 * below + words[below].trailing_zeros() as usize;
    }
    bit
}

fn pop_least(words: &mut [u64], first: usize, levels: u32) -> Option<u32>
    requires { IsTree words.old first levels }
    ensures none { IfNone result ((g : ℕ) → is_in_tree words.old first g ≡ false) }
    ensures same { IfNone result (words.new ≡ words.old) }
    ensures first { IfSome result (λ gate. is_in_tree words.old first gate ≡ true) }
    ensures least { IfSome result (λ gate. (g : ℕ)
        → is_in_tree words.old first g ≡ true → gate ≤ g) }
    ensures rest { IfSome result (λ gate. (g : ℕ) → is_in_tree words.new first g
        ≡ (not (g == gate) && is_in_tree words.old first g)) }
    ensures as_many { length words.new ≡ length words.old }
    ensures tree { IsTree words.new first levels }
{
    if words[0] == 0 {
        return None;
    }
    let bit = least_bit(words, levels);
    tell(words, bit, false);
    Some((bit - first) as u32)
}

impl Ready {
    /// No gate, with bits for so many.
    pub(super) fn new(alloc: Global, gates: u32) -> Result<Self, AllocError>
        requires { gates ≤ LARGEST }
        ensures empty { IfOk result (λ ready. (g : ℕ) → has ready g ≡ false) }
        ensures room { IfOk result (λ ready. gates ≤ room ready) }
    {
        let gates = gates as usize;
        let mut first = 0;
        let mut levels = 0;
        while 63 * first + 64 <= gates {
            first = 64 * first + 64;
            levels += 1;
        }
        Ok(Ready {
            least: None,
            words: vec![in alloc; 0; (first + gates) / 64 + 1]?,
            first,
            levels,
        })
    }

    pub(super) fn insert(&mut self, gate: u32)
        requires { gate < room self.old }
        ensures ready { (g : ℕ) → has self.new g ≡ ((g == gate) || has self.old g) }
        ensures room { room self.new ≡ room self.old }
    {
        let Some(least) = self.least else {
            self.least = Some(gate);
            return;
        };
        if gate == least {
            return;
        }
        self.least = Some(gate.min(least));
        tell(&mut self.words, self.first + gate.max(least) as usize, true);
    }

    pub(super) fn pop_first(&mut self) -> Option<u32>
        ensures none { IfNone result ((g : ℕ) → has self.old g ≡ false) }
        ensures same { IfNone result (self.new ≡ self.old) }
        ensures first { IfSome result (λ gate. has self.old gate ≡ true) }
        ensures least { IfSome result (λ gate. (g : ℕ) → has self.old g ≡ true → gate ≤ g) }
        ensures rest { IfSome result (λ gate. (g : ℕ)
            → has self.new g ≡ (not (g == gate) && has self.old g)) }
        ensures room { room self.new ≡ room self.old }
    {
        let least = self.least?;
        self.least = pop_least(&mut self.words, self.first, self.levels);
        Some(least)
    }
}
