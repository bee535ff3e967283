//! The search for places of a table that serve one variable after the other. What is found is
//! checked gate by gate: each operand's variable still stands at its place.
ghost use Rattle.std.specs.Prelude.{◌≡◌, ◌+◌, ◌*◌, ◌<◌, ◌≤◌, ◌^◌, ℕ, IfSome, length};
ghost use Rattle.std.specs.Prelude.{slice_index_or};
ghost use Rattle.std.specs.List.{All};
ghost use Rattle.aig_places.specs.Places.{ArePlaces, StandFor};
ghost use Rattle.aig_step.specs.Parts.Tables.{IsLiteralBelow, IsPairBelow};

use crate::places::Places;
use aig_circuit::{Gate, Lit, Var};
use aig_step::{Machine, Pair};
use std::alloc::Global;

/// For so many variables there is at most one place: with more places a table is hardly better than
/// one with a place for each variable.
const FEWEST: usize = 4;

/// Of so many gates one is looked at, before places are searched for.
const SAMPLED: usize = 256;

/// So many steps would gain what a search costs where all gates read far.
const STEPS: usize = 48;

fn note_gates(last: &mut [u32], first: usize, pairs: &[Pair])
    requires below { All (IsPairBelow (length last.old)) pairs.now }
    requires count { first + length pairs.now ≤ 2 ^ 32 }
{
    let mut gate = first;
    for pair in pairs {
        last[pair.left.var().0 as usize] = gate as u32;
        last[pair.right.var().0 as usize] = gate as u32;
        gate += 1;
    }
}

fn note_shown(last: &mut [u32], literals: &[Lit])
    requires { All (IsLiteralBelow (length last.old)) literals.now }
{
    for literal in literals {
        last[literal.var().0 as usize] = u32::MAX;
    }
}

/// Of each variable the gate that reads it last: 0 where none does, and more than any gate where it
/// is shown.
fn last_readers(
    alloc: Global,
    variables: usize,
    first: usize,
    pairs: &[Pair],
    literals: &[Lit],
) -> Option<Vec<u32>>
    requires variables { variables ≤ 2 ^ 32 }
    requires pairs { All (IsPairBelow variables) pairs.now }
    requires literals { All (IsLiteralBelow variables) literals.now }
    requires count { first + length pairs.now ≤ 2 ^ 32 }
    ensures { IfSome result (λ last. length last.items ≡ variables) }
{
    let mut last = vec![in alloc; 0; variables].ok()?;
    note_gates(&mut last, first, pairs);
    note_shown(&mut last, literals);
    Some(last)
}

/// Whether a search pays off for so many steps, each of which gains by it: it does unless most
/// gates read distant gates, where it takes long and finds no few places.
fn is_worth(first: usize, pairs: &[Pair], steps: usize) -> bool
    requires { first + length pairs.now ≤ 2 ^ 32 }
{
    let far = pairs.len() / 32;
    let samples = pairs.len() / SAMPLED;
    let mut count = 0;
    for k in 0..samples {
        let gate = SAMPLED * k;
        let lower = pairs[gate].right.var().0 as usize;
        if first <= lower && lower + far < first + gate {
            count += 1;
        }
    }
    STEPS * count <= steps.min(STEPS / 2) * samples
}

/// The variables of these numbers, each at its place.
fn first_holders(alloc: Global, first: u32) -> Option<Vec<u32>>
    ensures count { IfSome result (λ holders. length holders.items ≡ first) }
    ensures own { IfSome result (λ holders. (p : ℕ) → p < first
        → slice_index_or holders.items p 0 ≡ p) }
{
    let mut holders = Vec::new(alloc);
    for variable in 0..first {
        holders.push(variable).ok()?;
    }
    Some(holders)
}

/// What stands where, while the gates take places in turn.
#[derive(Drop)]
struct Placing {
    /// Of each variable the gate that reads it last.
    last: Vec<u32>,
    /// Of each variable the place that it has, or had.
    places: Vec<u32>,
    /// Of each place the variable that stands there.
    holders: Vec<u32>,
    /// Places whose variables nothing reads any more, and after them room for more.
    free: Vec<u32>,
    /// How many places are free.
    free_count: usize,
    ghost each: { length last.items ≡ length places.items },
    ghost few: { length holders.items ≤ length free.items },
    ghost small: { 4 * length free.items ≤ length places.items },
    ghost counted: { length places.items ≤ 2 ^ 32 },
}

impl Placing {
    ghost use Rattle.aig_places.specs.Places.{ArePlaced, IsPlaced, StandsAt, Takes};

    /// What stands where before the first gate, if there may be so many places.
    fn new(alloc: Global, last: Vec<u32>, first: u32, most: usize) -> Option<Self>
        requires first { first ≤ most }
        requires most { 4 * most ≤ length last.items }
        requires count { length last.items ≤ 2 ^ 32 }
        ensures places { IfSome result (λ placing.
            length placing.places.items ≡ length last.items) }
        ensures count { IfSome result (λ placing. length placing.holders.items ≡ first) }
        ensures own { IfSome result (λ placing. (p : ℕ) → p < first
            → slice_index_or placing.holders.items p 0 ≡ p) }
    {
        let places = vec![in alloc; 0; last.len()].ok()?;
        let mut placing = Placing {
            last,
            places,
            holders: first_holders(alloc, first)?,
            free: vec![in alloc; 0; most].ok()?,
            free_count: 0,
        };
        placing.free_first(first)?;
        Some(placing)
    }

    /// The literal over places, if its variable still stands at its place.
    #[inline(always)]
    fn seen(&self, literal: Lit) -> Option<Lit>
        requires { IsLiteralBelow (length self.now.places.items) literal }
        ensures { IfSome result (λ seen. StandsAt self.now.holders.items seen literal) }
    {
        let variable = literal.var().0;
        let place = self.places[variable as usize];
        if place as usize >= self.holders.len() || self.holders[place as usize] != variable {
            return None;
        }
        Some(Lit(2 * place + literal.0 % 2))
    }

    /// Frees the place of a variable, if this gate is the last one that reads it. Which gates are
    /// cannot be foreseen, so there is no branch.
    #[inline(always)]
    fn free_behind(&mut self, variable: u32, gate: u32) -> Option<()>
        requires { variable < length self.old.places.items }
        ensures places { self.new.places ≡ self.old.places }
        ensures holders { self.new.holders ≡ self.old.holders }
    {
        if self.free_count >= self.free.len() {
            return None;
        }
        self.free[self.free_count] = self.places[variable as usize];
        self.free_count += (self.last[variable as usize] == gate) as usize;
        Some(())
    }

    /// A place for a variable: the one that was freed last, or a new one.
    #[inline(always)]
    fn take(&mut self, variable: u32) -> Option<u32>
        ensures places { self.new.places ≡ self.old.places }
        ensures takes { IfSome result (λ place.
            Takes self.old.holders.items self.new.holders.items place variable) }
    {
        if self.free_count == 0 {
            let place = self.holders.len();
            if place >= self.free.len() {
                return None;
            }
            self.holders.push(variable).ok()?;
            return Some(place as u32);
        }
        if self.free_count > self.free.len() {
            return None;
        }
        self.free_count -= 1;
        let place = self.free[self.free_count];
        if place as usize >= self.holders.len() {
            return None;
        }
        self.holders[place as usize] = variable;
        Some(place)
    }

    /// The constant, the inputs and the latches stand at the places of their numbers.
    fn free_first(&mut self, first: u32) -> Option<()>
        requires { first ≤ length self.old.places.items }
        ensures places { length self.new.places.items ≡ length self.old.places.items }
        ensures holders { self.new.holders ≡ self.old.holders }
    {
        for variable in 0..first {
            self.places[variable as usize] = variable;
            self.free_behind(variable, 0)?;
        }
        Some(())
    }

    #[inline(always)]
    fn place_gate(&mut self, variable: u32, pair: Pair) -> Option<Gate>
        requires below { IsPairBelow (length self.old.places.items) pair }
        requires variable { variable < length self.old.places.items }
        ensures places { length self.new.places.items ≡ length self.old.places.items }
        ensures placed { IfSome result
            (IsPlaced variable pair self.old.holders.items self.new.holders.items) }
    {
        let left = self.seen(pair.left)?;
        let right = self.seen(pair.right)?;
        self.free_behind(pair.left.var().0, variable)?;
        if pair.left.var().0 != pair.right.var().0 {
            self.free_behind(pair.right.var().0, variable)?;
        }
        let place = self.take(variable)?;
        self.places[variable as usize] = place;
        self.free_behind(variable, 0)?;
        Some(Gate {
            var: Var(place),
            left,
            right,
        })
    }

    // Apart from its callers, since the loop needs the registers.
    #[inline(never)]
    fn place_gates(&mut self, alloc: Global, first: usize, pairs: &[Pair]) -> Option<Vec<Gate>>
        requires below { All (IsPairBelow (length self.old.places.items)) pairs.now }
        requires room { first + length pairs.now ≤ length self.old.places.items }
        requires before { All (λ holder. holder < first) self.old.holders.items }
        ensures places { length self.new.places.items ≡ length self.old.places.items }
        ensures placed { IfSome result (λ gates.
            ArePlaced first pairs.now self.old.holders.items self.new.holders.items gates.items) }
    {
        let Ok(mut gates) = Vec::with_capacity(alloc, pairs.len()) else {
            return None;
        };
        let mut variable = first;
        for pair in pairs {
            gates.push(self.place_gate(variable as u32, *pair)?).ok()?;
            variable += 1;
        }
        Some(gates)
    }

    fn see_all(&self, alloc: Global, literals: &[Lit]) -> Option<Vec<Lit>>
        requires { All (IsLiteralBelow (length self.now.places.items)) literals.now }
        ensures count { IfSome result (λ seen. length seen.items ≡ length literals.now) }
        ensures stand { IfSome result (λ seen. (k : ℕ) → k < length literals.now
            → StandsAt self.now.holders.items (slice_index_or seen.items k 0)
            (slice_index_or literals.now k 0)) }
    {
        let Ok(mut seen) = Vec::with_capacity(alloc, literals.len()) else {
            return None;
        };
        for literal in literals {
            seen.push(self.seen(*literal)?).ok()?;
        }
        Some(seen)
    }
}

/// Places that serve one variable after the other, and these literals over them, where so few are
/// enough that they are worth it.
fn find_places(
    alloc: Global,
    machine: &Machine,
    literals: &[Lit],
    steps: usize,
) -> Option<(Places, Vec<Lit>)>
    requires { All (IsLiteralBelow (1 + machine.now.max_var)) literals.now }
    ensures places { IfSome result (λ found. ArePlaces machine.now found.0) }
    ensures stand { IfSome result (λ found.
        StandFor machine.now found.0 literals.now found.1.items) }
{
    let parts = machine.parts();
    let pairs = machine.pairs();
    let most = parts.max_var as usize / FEWEST;
    let first = 1 + parts.inputs.len() + parts.latches.len();
    if first > most || literals.len() > most - first || !is_worth(first, pairs, steps) {
        return None;
    }
    let last = last_readers(alloc, 1 + parts.max_var as usize, first, pairs, literals)?;
    let mut placing = Placing::new(alloc, last, first as u32, most)?;
    let gates = placing.place_gates(alloc, first, pairs)?;
    let seen = placing.see_all(alloc, literals)?;
    let places = Places {
        count: placing.holders.len(),
        gates: Some(gates),
    };
    Some((places, seen))
}

/// Places for so many steps of a circuit, and these literals over them.
pub fn places_for(
    alloc: Global,
    machine: &Machine,
    literals: Vec<Lit>,
    steps: usize,
) -> (Places, Vec<Lit>)
    requires { All (IsLiteralBelow (1 + machine.now.max_var)) literals.items }
    ensures places { ArePlaces machine.now result.0 }
    ensures stand { StandFor machine.now result.0 literals.items result.1.items }
{
    match find_places(alloc, machine, &literals, steps) {
        Some(found) => found,
        None => (Places::own(machine), literals),
    }
}
