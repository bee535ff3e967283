//! Maps from variables of large indices.
ghost use Rattle.std.specs.Prelude.{◌≡◌, ◌≢◌, ◌==◌, ◌+◌, ◌^◌, ◌<◌, ◌≤◌, ℕ, List, None};
ghost use Rattle.std.specs.Prelude.{Some, length};
ghost use Rattle.std.specs.Prelude.{IfOk, OnOk, OnErr, not, is_some, false, if◌then◌else◌};
ghost use Rattle.std.proofs.Math.ListN.{replicate};
ghost use Rattle.std.specs.Option.{option_or};
ghost use Rattle.std.specs.Ordering.{nat_cmp};
ghost use Rattle.std.specs.BTreeMap.{get as tree_get, IsUnchanged};
ghost use Rattle.std.specs.FinMap as map;
ghost use Rattle.std.specs.Coded.{coded_ℕ};
ghost use Rattle.aig_tables.specs.VarMap.{with_new};
ghost use Rattle.aig_tables.specs.Parts.Places.{start_of, window_of, map_of, spread_at, IsSpread};

use crate::var_map::places::MapValue;
use crate::var_map::slot::{Slot, first_end};
use aig_circuit::{LARGEST, Var};
use std::alloc::{AllocError, Global};
use std::collections::BTreeMap;
use std::marker::Model;

/// So half of the slots are empty, and most variables stand in their first slot or near it.
const SLOTS_PER_VARIABLE: usize = 2;

const MOST_STARTS: usize = u32::MAX as usize;

/// In how many slots an index may stand.
const WINDOW: usize = 16;

/// An odd number whose multiples spread over the numbers of 32 bits.
const MULTIPLIER: u32 = 2_654_435_769;

/// Values of variables in slots, each in the first that was empty from a start on that a fixed
/// multiplier gives, and in a tree where none of its window was. So indices that are chosen against
/// the multiplier take the time of the tree.
#[derive(Drop)]
pub(super) struct Spread<T: MapValue> {
    /// In how many slots a window starts.
    starts: usize,
    slots: Vec<Slot<T>>,
    others: BTreeMap<Var, T>,
}

impl<T: MapValue> Model for Spread<T> {
    ghost Value = { map.FinMap nat_cmp T };

    ghost coded = { map.code coded_ℕ T.code };

    ghost view = { λ a. map_of (spread_at a.starts a.slots.items a.others) };

    ghost invariant = { λ a. IsSpread a.starts a.slots.items a.others };
}

#[inline(always)]
fn start_of(starts: usize, index: u32) -> usize
    requires some { 0 < starts }
    requires few { starts < 2 ^ 32 }
    ensures value { result ≡ start_of starts index }
    ensures below { result < starts }
{
    let hash = u64::from(index.wrapping_mul(MULTIPLIER));
    (hash * starts as u64 >> 32) as usize
}

/// The slots in which an index may stand. Index 0, by which a slot is empty, has none, nor has one
/// past the largest.
#[inline(always)]
fn window_of<T: Copy>(slots: &[Slot<T>], starts: usize, index: u32) -> &[Slot<T>]
    requires some { 0 < starts }
    requires few { starts < 2 ^ 32 }
    requires room { length slots.now ≡ starts + WINDOW }
    ensures { result.now ≡ window_of starts slots.now index }
{
    if index > 0 && index <= LARGEST {
        let start = start_of(starts, index);
        &slots[start..start + WINDOW]
    } else {
        &[]
    }
}

/// Gives a variable its value in a tree, unless it has one there, and answers whether it had none.
fn insert_new<T: Copy + Drop>(
    tree: &mut BTreeMap<Var, T>,
    var: Var,
    value: T,
) -> Result<bool, AllocError>
    ensures added { IfOk result (λ added.
        added ≡ not (is_some (tree_get nat_cmp tree.old var))) }
    ensures ok { OnOk result ((i : ℕ) → tree_get nat_cmp tree.new i
        ≡ option_or (tree_get nat_cmp tree.old i) (if i == var then Some value else None)) }
    ensures err { OnErr result (IsUnchanged tree.old tree.new) }
    ensures others { (i : ℕ) → i ≢ var → tree_get nat_cmp tree.new i ≡ tree_get nat_cmp tree.old i }
{
    if tree.contains_key(&var) {
        return Ok(false);
    }
    tree.insert(var, value)?;
    Ok(true)
}

/// So many empty slots. Their values are never read.
fn empty_slots<T: MapValue>(alloc: Global, count: usize, any: T) -> Result<Vec<Slot<T>>, AllocError>
    ensures { IfOk result (λ slots.
        slots.items ≡ replicate count (record { index = 0; value = any })) }
{
    let empty = Slot {
        index: 0,
        value: any,
    };
    let mut slots = Vec::with_capacity(alloc, count)?;
    for _ in 0..count {
        slots.push(empty)?;
    }
    Ok(slots)
}

impl<T: MapValue> Spread<T> {
    /// An empty map that is fast for about so many variables.
    pub(super) fn new(alloc: Global, expected: usize) -> Result<Self, AllocError>
        ensures { IfOk result (λ values. values ≡ map.empty) }
    {
        let starts = expected
            .saturating_mul(SLOTS_PER_VARIABLE)
            .clamp(1, MOST_STARTS);
        let any = T::default();
        Ok(Spread {
            starts,
            slots: empty_slots(alloc, starts + WINDOW, any)?,
            others: BTreeMap::new(alloc),
        })
    }

    #[inline(never)]
    pub(super) fn get(&self, var: Var) -> Option<T>
        ensures { result ≡ map.get self.now var }
    {
        let window = window_of(&self.slots, self.starts, var.0);
        let place = first_end(window, var.0);
        if place == window.len() {
            return self.others.get(&var).copied();
        }
        let slot = window[place];
        if slot.index == var.0 {
            Some(slot.value)
        } else {
            None
        }
    }

    /// Whether the slot of a variable is overfull, which none is.
    #[inline(always)]
    pub(super) fn is_overfull(&self, var: Var) -> bool
        ensures { result ≡ false }
    {
        self.slots[start_of(self.starts, var.0)].index > LARGEST
    }

    #[inline(never)]
    pub(super) fn insert(&mut self, var: Var, value: T) -> Result<bool, AllocError>
        ensures added { IfOk result (λ added. added ≡ not (map.contains_key self.old var)) }
        ensures ok { OnOk result (self.new ≡ with_new self.old var value) }
        ensures err { OnErr result (self.new ≡ self.old) }
    {
        let window = window_of(&self.slots, self.starts, var.0);
        let place = first_end(window, var.0);
        if place == window.len() {
            return insert_new(&mut self.others, var, value);
        }
        let slot = window[place];
        if slot.index == var.0 {
            return Ok(false);
        }
        let at = start_of(self.starts, var.0) + place;
        self.slots[at] = Slot {
            index: var.0,
            value,
        };
        Ok(true)
    }
}
