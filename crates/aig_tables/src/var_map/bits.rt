//! Tables of bits.
ghost use Rattle.std.specs.Prelude.{◌*◌, length, nat_lt};
ghost use Rattle.std.proofs.Common.{refl};
ghost use Rattle.std.proofs.lemmas.Bool.{ltb-true};
ghost use Rattle.aig_tables.specs.Parts.Places.{mark_of};

use crate::var_map::places::{MapValue, Places};
use aig_circuit::Circuit;
use std::alloc::{AllocError, Global};

/// A table of bits, 64 to a word.
#[derive(Drop)]
pub struct Bits {
    words: Vec<u64>,
}

impl MapValue for () {
    type Table = Bits;

    const PLACES_PER_VARIABLE: usize = 32;

    ghost is_small = { ltb-true _ _ refl };
}

impl Places for Bits {
    type Item = ();

    ghost covered = { λ b i. nat_lt i (64 * length b.words.items) };

    ghost held = { λ b. mark_of b.words.items };

    ghost fits = { λ _. Unit {0} };

    fn new(alloc: Global, places: usize) -> Result<Self, AllocError> {
        Ok(Bits {
            words: vec![in alloc; 0; places.div_ceil(64)]?,
        })
    }

    fn for_circuit(alloc: Global, circuit: &Circuit) -> Result<Self, AllocError> {
        Bits::new(alloc, circuit.max_var as usize + 1)
    }

    #[inline(always)]
    fn covers(&self, index: usize) -> bool {
        index / 64 < self.words.len()
    }

    #[inline(always)]
    fn get(&self, index: usize) -> Option<()> {
        if self.words[index / 64] >> (index % 64) & 1 == 1 {
            Some(())
        } else {
            None
        }
    }

    #[inline(always)]
    fn insert(&mut self, index: usize, _value: ()) -> bool {
        let is_new = self.get(index).is_none();
        self.words[index / 64] |= 1 << (index % 64);
        is_new
    }

    #[inline(always)]
    fn put(&mut self, index: usize, _value: ()) {
        self.words[index / 64] |= 1 << (index % 64);
    }
}
