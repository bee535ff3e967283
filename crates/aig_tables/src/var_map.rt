//! Maps from variables.
ghost use Rattle.std.specs.Prelude.{◌≡◌, ◌<◌, ◌-◌, ◌^◌, IfOk, OnOk, OnErr, None, not, false};
ghost use Rattle.std.specs.Option.{IfSome};
ghost use Rattle.std.specs.Ordering.{nat_cmp};
ghost use Rattle.std.specs.FinMap as map;
ghost use Rattle.std.specs.Coded.{coded_ℕ};
ghost use Rattle.aig_tables.specs.VarMap.{with_new, link_to};
ghost use Rattle.aig_tables.specs.Parts.Places.{map_of, kept_at};

use crate::var_map::places::{MapValue, Places};
use crate::var_map::spread::Spread;
use aig_circuit::{Circuit, Var};
use std::alloc::{AllocError, Global};
use std::marker::Model;

mod bits;
mod places;
mod ranks;
mod slot;
mod spread;
mod table;

pub use crate::var_map::ranks::Ranks;

/// Below so many indices for each definition of a circuit, each index has its place.
const PLACES_PER_DEFINITION: usize = 3;

/// Below so many indices for each definition of a circuit, each index has a bit.
const BITS_PER_DEFINITION: usize = 32;

/// How far the variables that a circuit defines lie apart, which decides what a map of them is fast
/// for.
#[derive(Clone, Copy)]
pub enum Spacing {
    /// Near one another: each index has its place.
    Near,
    /// Spread: each index has a bit, and each that is defined a place.
    Spread,
    /// Far apart: there are slots for so many as are defined.
    Far,
}

impl Spacing {
    /// How far they lie apart in this circuit.
    pub fn of_circuit(circuit: &Circuit) -> Spacing {
        let definitions = circuit.definition_count();
        let largest = circuit.max_var as usize;
        if largest < definitions.saturating_mul(PLACES_PER_DEFINITION) {
            Spacing::Near
        } else if largest < definitions.saturating_mul(BITS_PER_DEFINITION) {
            Spacing::Spread
        } else {
            Spacing::Far
        }
    }
}

/// Values of variables. Where the largest index is not far above their number, which is most often,
/// each index has its place; where it is farther above, each that a circuit defines. Otherwise few
/// variables of large indices take little memory.
#[derive(Drop)]
pub struct VarMap<T: MapValue> {
    places: T::Table,
    spread: Spread<T>,
}

impl<T: MapValue> Model for VarMap<T> {
    ghost Value = { map.FinMap nat_cmp T };

    ghost coded = { map.code coded_ℕ T.code };

    ghost view = { λ a. map_of (kept_at (T.Table.covered a.places)
        (T.Table.held a.places) a.spread) };
}

impl<T: MapValue> VarMap<T> {
    /// An empty map that is fast for about so many variables, of indices up to the largest one. Its
    /// memory grows with their number, and not with the largest index.
    pub fn new(alloc: Global, expected: usize, largest: u32) -> Result<Self, AllocError>
        ensures { IfOk result (λ values. values ≡ map.empty) }
    {
        let largest = largest as usize;
        let is_dense = largest < expected.saturating_mul(T::PLACES_PER_VARIABLE);
        let (places, spread) = if is_dense {
            (largest + 1, 0)
        } else {
            (0, expected)
        };
        Ok(VarMap {
            places: T::Table::new(alloc, places)?,
            spread: Spread::new(alloc, spread)?,
        })
    }

    /// An empty map that is fast for the variables that a circuit defines. In contrast to `new` it
    /// knows them: where they are spread, each has a place, and each index a bit.
    pub fn for_circuit(alloc: Global, circuit: &Circuit) -> Result<Self, AllocError>
        ensures { IfOk result (λ values. values ≡ map.empty) }
    {
        if !matches!(Spacing::of_circuit(circuit), Spacing::Spread) {
            return VarMap::new(alloc, circuit.definition_count(), circuit.max_var);
        }
        Ok(VarMap {
            places: T::Table::for_circuit(alloc, circuit)?,
            spread: Spread::new(alloc, 0)?,
        })
    }

    /// The value of a variable.
    #[tactic(auto, using(crate::proofs::Tables::Maps::map_has))]
    #[inline(always)]
    pub fn get(&self, var: Var) -> Option<T>
        ensures { result ≡ map.get self.now var }
    {
        let index = var.0 as usize;
        if self.places.covers(index) {
            self.places.get(index)
        } else {
            self.spread.get(var)
        }
    }

    /// Whether the place of a variable is overfull, which none is. Who asks wants the read alone:
    /// what is read of several variables, one after the other, is on its way from memory before the
    /// first of them is looked up.
    #[inline(always)]
    pub fn is_overfull(&self, var: Var) -> bool
        ensures { result ≡ false }
    {
        !self.places.covers(var.0 as usize) && self.spread.is_overfull(var)
    }

    /// Gives a variable its value, unless it has one, and answers whether it had none.
    #[tactic(auto, using(crate::proofs::Tables::Maps::map_has))]
    #[inline(always)]
    pub fn insert(&mut self, var: Var, value: T) -> Result<bool, AllocError>
        requires { T.Table.fits value }
        ensures added { IfOk result (λ added. added ≡ not (map.contains_key self.old var)) }
        ensures ok { OnOk result (self.new ≡ with_new self.old var value) }
        ensures err { OnErr result (self.new ≡ self.old) }
    {
        let index = var.0 as usize;
        if self.places.covers(index) {
            Ok(self.places.insert(index, value))
        } else {
            self.spread.insert(var, value)
        }
    }

    /// Gives a variable that has no value its value. In contrast to `insert` its place is not read:
    /// a read would be waited for, a write is not.
    #[tactic(auto, using(crate::proofs::Tables::Maps::map_has))]
    #[inline(always)]
    pub fn put(&mut self, var: Var, value: T) -> Result<(), AllocError>
        requires fits { T.Table.fits value }
        requires none { map.get self.old var ≡ None }
        ensures ok { OnOk result (self.new ≡ with_new self.old var value) }
        ensures err { OnErr result (self.new ≡ self.old) }
    {
        let index = var.0 as usize;
        if self.places.covers(index) {
            self.places.put(index, value);
        } else {
            self.spread.insert(var, value)?;
        }
        Ok(())
    }
}

impl VarMap<u32> {
    /// One more than the value of a variable, or 0 where it has none.
    #[tactic(auto, using(crate::proofs::Tables::Maps::map_has))]
    #[inline(always)]
    pub fn link(&self, var: Var) -> u32
        requires { IfSome (map.get self.now var) (λ value. value < 2 ^ 32 - 1) }
        ensures { result ≡ link_to (map.get self.now var) }
    {
        let index = var.0 as usize;
        if self.places.covers(index) {
            return self.places.link(index);
        }
        match self.spread.get(var) {
            Some(value) => value + 1,
            None => 0,
        }
    }
}
