//! Tables of numbers.
ghost use Rattle.std.specs.Prelude.{◌≡◌, ◌-◌, ◌<◌, ◌≤◌, ◌^◌, length, true};
ghost use Rattle.std.proofs.Common.{refl};
ghost use Rattle.std.proofs.lemmas.Bool.{ltb-true};
ghost use Rattle.aig_tables.specs.VarMap.{link_to};
ghost use Rattle.aig_tables.specs.Parts.Places.{has_place, place_of, number_of};

use crate::var_map::places::{MapValue, Places};
use crate::var_map::ranks::Ranks;
use aig_circuit::Circuit;
use std::alloc::{AllocError, Global};

/// A table of numbers: one more than the number, or 0 where there is none. Each index has its
/// place, or each that is announced.
#[derive(Drop)]
pub struct Table {
    ranks: Ranks,
    places: Vec<u32>,
    ghost room: { ranks.count ≤ length places.items },
}

impl MapValue for u32 {
    type Table = Table;

    const PLACES_PER_VARIABLE: usize = 10;

    ghost is_small = { ltb-true _ _ refl };
}

impl Table {
    #[inline(always)]
    fn slot(&self, index: usize) -> usize
        requires { has_place self.now.ranks.words.items self.now.places.items index ≡ true }
        ensures place { result ≡ place_of self.now.ranks.words.items index }
        ensures below { result < length self.now.places.items }
    {
        if self.ranks.is_empty() {
            index
        } else {
            self.ranks.rank(index)
        }
    }

    /// One more than an index's number, or 0 for none: what its place has, so nothing is decided.
    #[inline(always)]
    pub(super) fn link(&self, index: usize) -> u32
        requires { has_place self.now.ranks.words.items self.now.places.items index ≡ true }
        ensures { result ≡ link_to
            (number_of self.now.ranks.words.items self.now.places.items index) }
    {
        self.places[self.slot(index)]
    }
}

impl Places for Table {
    type Item = u32;

    ghost covered = { λ t. has_place t.ranks.words.items t.places.items };

    ghost held = { λ t. number_of t.ranks.words.items t.places.items };

    ghost fits = { λ n. n < 2 ^ 32 - 1 };

    fn new(alloc: Global, places: usize) -> Result<Self, AllocError> {
        Ok(Table {
            ranks: Ranks::none(alloc),
            places: vec![in alloc; 0; places]?,
        })
    }

    fn for_circuit(alloc: Global, circuit: &Circuit) -> Result<Self, AllocError> {
        let ranks = Ranks::of_circuit(alloc, circuit)?;
        let places = vec![in alloc; 0; ranks.count()]?;
        Ok(Table { ranks, places })
    }

    #[inline(always)]
    fn covers(&self, index: usize) -> bool {
        if self.ranks.is_empty() {
            index < self.places.len()
        } else {
            self.ranks.has(index)
        }
    }

    #[inline(always)]
    fn get(&self, index: usize) -> Option<u32> {
        self.places[self.slot(index)].checked_sub(1)
    }

    #[inline(always)]
    fn insert(&mut self, index: usize, value: u32) -> bool {
        let place = self.slot(index);
        let is_new = self.places[place] == 0;
        if is_new {
            self.places[place] = value + 1;
        }
        is_new
    }

    #[inline(always)]
    fn put(&mut self, index: usize, value: u32) {
        let place = self.slot(index);
        self.places[place] = value + 1;
    }
}
