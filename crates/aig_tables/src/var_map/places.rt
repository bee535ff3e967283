//! Places by index.
ghost use Rattle.std.specs.Prelude.{◌≡◌, ◌==◌, ℕ, Bool, true, Option};
ghost use Rattle.std.specs.Prelude.{None, Some, not, is_some, IfOk};
ghost use Rattle.std.specs.Prelude.{if◌then◌else◌};
ghost use Rattle.std.specs.Option.{option_or};
ghost use Rattle.std.specs.Mem.{FitsInMemory};
ghost use Rattle.aig_tables.specs.contracts.var_map.slot.Slot.{the_row as slot_row};

use aig_circuit::Circuit;
use std::alloc::{AllocError, Global};

/// Places by index, each of which has a value or none.
pub trait Places {
    /// What a place may have.
    type Item: Copy;

    /// Whether an index has a place.
    ghost covered: { Self → ℕ → Bool };

    /// What the place of an index has.
    ghost held: { Self → ℕ → Option Self.Item };

    /// What there is room for.
    ghost fits: { Self.Item → Type 0 };

    /// Places of so many indices at least, with no values.
    fn new(alloc: Global, places: usize) -> Result<Self, AllocError>
        ensures { IfOk result (λ places. (i : ℕ) → held places i ≡ None) };

    /// Places of what a circuit defines, and perhaps of other indices, with no values.
    fn for_circuit(alloc: Global, circuit: &Circuit) -> Result<Self, AllocError>
        ensures { IfOk result (λ places. (i : ℕ) → held places i ≡ None) };

    /// Whether there is a place for the index.
    fn covers(&self, index: usize) -> bool
        ensures { result ≡ covered self.now index };

    /// What the place of the index has.
    fn get(&self, index: usize) -> Option<Self::Item>
        requires { covered self.now index ≡ true }
        ensures { result ≡ held self.now index };

    /// Puts a value into the place of an index, unless it has one, and answers whether it had none.
    fn insert(&mut self, index: usize, value: Self::Item) -> bool
        requires has_place { covered self.old index ≡ true }
        requires fits { fits value }
        ensures added { result ≡ not (is_some (held self.old index)) }
        ensures held { (i : ℕ) → held self.new i
            ≡ option_or (held self.old i) (if i == index then Some value else None) }
        ensures same_places { (i : ℕ) → covered self.new i ≡ covered self.old i };

    /// Puts a value into the place of an index that has none. The place is not read.
    fn put(&mut self, index: usize, value: Self::Item)
        requires has_place { covered self.old index ≡ true }
        requires none { held self.old index ≡ None }
        requires fits { fits value }
        ensures held { (i : ℕ) → held self.new i
            ≡ option_or (held self.old i) (if i == index then Some value else None) }
        ensures same_places { (i : ℕ) → covered self.new i ≡ covered self.old i };
}

/// What a map may have of variables, and the places for it.
pub trait MapValue: Copy + Default {
    /// The places.
    type Table: Places<Item = Self> + Drop;

    /// How many places there are at most for each variable that is expected.
    const PLACES_PER_VARIABLE: usize;

    /// A slot with a value is not too large to be in memory.
    ghost is_small: { FitsInMemory (slot_row Self.row) };
}
