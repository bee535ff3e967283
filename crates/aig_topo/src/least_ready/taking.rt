//! Gates are looked at one after the other, and taken once they are ready: each that is left waits
//! in the list of one gate that it needs.
ghost use Rattle.std.specs.Prelude.{◌≡◌, ◌≢◌, ◌==◌, ◌||◌, ◌+◌, ◌<◌, ◌≤◌};
ghost use Rattle.std.specs.Prelude.{ℕ, suc, List, ◌∷◌, None, Some};
ghost use Rattle.std.specs.Prelude.{[], false, length, map, nat_lt, slice_index};
ghost use Rattle.std.specs.List.{AllByRecursion, sum};
ghost use Rattle.std.specs.Option.{IfSome, IfNone};
ghost use Rattle.aig_circuit.specs.Wellformed.{IsAmong};
ghost use Rattle.aig_topo.specs.Order.{left_over, IsFull, TakesLeast};
ghost use Rattle.aig_topo.specs.Lists.{links_in, list_in, needs_in, AreLists};
ghost use Rattle.aig_topo.specs.declared.operands.Needs.{Needs};
ghost use Rattle.aig_topo.specs.Needs.{how_many, linked, needs_at, under, AreThere};
ghost use Rattle.aig_topo.specs.Progress.{due, CountsDown, CountsFor};
ghost use Rattle.aig_topo.specs.Ready.{has, room};
ghost use Rattle.aig_topo.specs.Waiting.{rest_by, Suffices, RowsWait, Stands};

use crate::least_ready::ready::Ready;
use crate::lists::Lists;
use crate::operands::Needs;
use crate::order::Order;
use aig_circuit::LARGEST;

/// A gate that is missing, by its position, and what is needed beside it and what is taken: one
/// more than a position, or 0 for nothing.
#[derive(Clone, Copy)]
struct Missing {
    gate: u32,
    rest: u32,
}

/// Answers whether the gate that is needed is missing. Without it so many are left to wait for.
#[inline(always)]
fn count_if_taken(needed: u32, left: u8, gate: u32, order: &mut Order) -> bool
    requires there { gate < length order.old.waiting }
    requires needed { AllByRecursion (λ h. h < length order.old.waiting) (linked needed) }
    requires waiting { 0 < needed → slice_index order.old.waiting gate ≡ left + 1 }
    ensures missing { result ≡ nat_lt 0 (left_over order.old.list (linked needed)) }
    ensures for_gate { CountsFor gate order.old order.new }
    ensures counted { slice_index order.new.waiting gate + length (linked needed)
        ≡ slice_index order.old.waiting gate + left_over order.old.list (linked needed) }
{
    if needed == 0 {
        return false;
    }
    if !order.has(needed - 1) {
        return true;
    }
    order.count_down(gate, left);
    false
}

/// Those before the missing one are counted.
#[inline(always)]
fn missing_gate(asked: Needs, gate: u32, order: &mut Order) -> Option<Missing>
    requires there { gate < length order.old.waiting }
    requires asked { AllByRecursion (λ h. h < length order.old.waiting) (under asked) }
    requires waiting { slice_index order.old.waiting gate ≡ length (under asked) }
    ensures for_gate { CountsFor gate order.old order.new }
    ensures none { IfNone result (left_over order.old.list (under asked) ≡ 0) }
    ensures idle { IfNone result (slice_index order.new.waiting gate ≡ 0) }
    ensures missing { IfSome result (λ m. ¬ IsAmong m.gate order.old.list) }
    ensures enough { IfSome result (λ m.
        Suffices order.old.list (under asked) (m.gate ∷ linked m.rest)) }
    ensures counted { IfSome result (λ m. slice_index order.new.waiting gate
        ≡ suc (length (linked m.rest))) }
    ensures there { IfSome result (λ m.
        AllByRecursion (λ h. h < length order.old.waiting) (m.gate ∷ linked m.rest)) }
{
    if count_if_taken(asked.left, u8::from(asked.right > 0), gate, order) {
        return Some(Missing {
            gate: asked.left - 1,
            rest: asked.right,
        });
    }
    if count_if_taken(asked.right, 0, gate, order) {
        return Some(Missing {
            gate: asked.right - 1,
            rest: 0,
        });
    }
    None
}

/// No gate needs one at so high a position: that is asked for the sake of the read alone, by which
/// the row of the first gate that waits for this one is on its way from memory before this one is
/// taken. A read that decided nothing would be left out by the compiler.
#[inline(always)]
fn make_ready(gate: u32, lists: &Lists, ready: &mut Ready)
    requires few { length lists.now.rows.items ≤ LARGEST }
    requires needs { AreThere (needs_in lists.now.rows.items) }
    requires there { gate < length lists.now.rows.items }
    requires lists { AreLists (links_in lists.now.rows.items) }
    requires bit { gate < room ready.old }
    ensures ready { (g : ℕ) → has ready.new g ≡ ((g == gate) || has ready.old g) }
    ensures room { room ready.new ≡ room ready.old }
{
    if lists.first_rest(gate) == u32::MAX {
        return;
    }
    ready.insert(gate);
}

/// Counts down what a gate that waits needs beside the gate that it waits for, if that is taken.
#[inline(always)]
#[tactic(auto, using(crate::proofs::Ordering::Rows::rest_there))]
fn count_rest(gate: u32, order: &mut Order, lists: &Lists)
    requires there { gate < length lists.now.rows.items }
    requires as_many { length order.old.waiting ≡ length lists.now.rows.items }
    requires needs { AreThere (needs_in lists.now.rows.items) }
    requires counted { 0 < slice_index order.old.waiting gate
        → slice_index order.old.waiting gate ≡ suc (length (rest_by lists.now.rows.items gate)) }
    ensures for_gate { CountsFor gate order.old order.new }
    ensures idle { slice_index order.old.waiting gate ≡ 0 → slice_index order.new.waiting gate ≡ 0 }
    ensures counted { 0 < slice_index order.old.waiting gate
        → slice_index order.new.waiting gate
        ≡ suc (left_over order.old.list (rest_by lists.now.rows.items gate)) }
{
    if order.waiting(gate) > 0 {
        count_if_taken(lists.rest(gate), 1, gate, order);
    }
}

/// A search for the least ready order.
#[derive(Drop)]
pub(super) struct Search {
    pub(super) order: Order,
    pub(super) lists: Lists,
    pub(super) ready: Ready,
    /// How many gates were looked at.
    pub(super) seen: u32,
}

impl Search {
    /// Lets a gate wait for the first of those that are still to be asked for and that is not
    /// taken, and counts those before it; if there is none, the gate is ready.
    #[inline(always)]
    fn enter(&mut self, gate: u32, asked: Needs)
        ghost all: { List Needs }
        requires waits { RowsWait all (Some gate) self.old }
        requires asked { AllByRecursion (λ h. h < length all) (under asked) }
        requires counted { slice_index self.old.order.waiting gate ≡ length (under asked) }
        requires enough { Suffices self.old.order.list (needs_at all gate) (under asked) }
        ensures waits { RowsWait all None self.new }
        ensures list { self.new.order.list ≡ self.old.order.list }
        ensures seen { self.new.seen ≡ self.old.seen }
        ensures of_taken { (g : ℕ) → IsAmong g self.old.order.list
            → list_in self.new.lists.rows.items g ≡ list_in self.old.lists.rows.items g }
        ensures rests { (u : ℕ) → u ≢ gate
            → rest_by self.new.lists.rows.items u ≡ rest_by self.old.lists.rows.items u }
    {
        match missing_gate(asked, gate, &mut self.order) {
            Some(other) => self.lists.push(other.gate, gate, other.rest),
            None => make_ready(gate, &self.lists, &mut self.ready),
        }
    }

    /// What the next one needs beside is read before one is entered, to come from memory meanwhile.
    #[inline(always)]
    fn release_waiting(&mut self, gate: u32)
        ghost all: { List Needs }
        requires taken { IsAmong gate self.old.order.list }
        requires stands { Stands all (Some gate) self.old }
        ensures stands { Stands all None self.new }
        ensures list { self.new.order.list ≡ self.old.order.list }
        ensures seen { self.new.seen ≡ self.old.seen }
    {
        let mut ahead = self.lists.first_rest(gate);
        while let Some(user) = self.lists.pop(gate) {
            let asked = Needs {
                left: 0,
                right: ahead,
            };
            ahead = self.lists.first_rest(gate);
            self.order.count_down(user, asked.count());
            self.enter(user, asked);
        }
    }

    /// Enters the next gate, and takes all that are ready then, each time the least one.
    fn look_at_next(&mut self)
        ghost all: { List Needs }
        requires left { self.old.seen < length all }
        requires none { (g : ℕ) → has self.old.ready g ≡ false }
        requires stands { Stands all None self.old }
        ensures seen { self.new.seen ≡ self.old.seen + 1 }
        ensures none { (g : ℕ) → has self.new.ready g ≡ false }
        ensures stands { Stands all None self.new }
    {
        let gate = self.seen;
        self.seen += 1;
        let asked = self.lists.needs(gate);
        self.enter(gate, asked);
        while let Some(next) = self.ready.pop_first() {
            self.order.take(next);
            self.release_waiting(next);
        }
    }

    /// Counts down what gates that are left need and was taken after it was asked for. Where none
    /// is left there is none.
    fn count_rests(&mut self)
        ghost all: { List Needs }
        requires seen { self.old.seen ≡ length all }
        requires none { (g : ℕ) → has self.old.ready g ≡ false }
        requires stands { Stands all None self.old }
        ensures down { CountsDown self.old.order self.new.order }
        ensures waiting { (u : ℕ) → u < length all
            → slice_index self.new.order.waiting u
            ≡ left_over self.old.order.list (needs_at all u) }
    {
        if self.order.list().len() == self.lists.len() {
            return;
        }
        for gate in 0..self.lists.len() as u32 {
            count_rest(gate, &mut self.order, &self.lists);
        }
    }

    pub(super) fn look_at_all(&mut self)
        ghost all: { List Needs }
        requires none { (g : ℕ) → has self.old.ready g ≡ false }
        requires stands { Stands all None self.old }
        ensures in_turn { TakesLeast (length all) (needs_at all) [] self.new.order.list }
        ensures full { IsFull (length all) (needs_at all) self.new.order.list }
        ensures as_many { length self.new.order.waiting ≡ length all }
        ensures waiting { (u : ℕ) → u < length all
            → slice_index self.new.order.waiting u
            ≡ left_over self.new.order.list (needs_at all u) }
        ensures paid { due self.new.order ≡ length self.new.order.list + sum (map how_many all) }
    {
        while (self.seen as usize) < self.lists.len() {
            self.look_at_next();
        }
        self.count_rests();
    }
}
