//! An order of gates that is being made. No module stands in this one: its fields are private, so
//! steps change through `take` and `count_down` alone.
ghost use Rattle.std.specs.Prelude.{◌≡◌, ◌==◌, ◌+◌, ◌-◌, ◌*◌, ◌/◌, ◌<◌};
ghost use Rattle.std.specs.Prelude.{◌≤◌, ℕ, [], ◌∷◌, ◌++◌, length, map};
ghost use Rattle.std.specs.Prelude.{slice_index, slice_set, true, if◌then◌else◌, IfOk, OnOk};
ghost use Rattle.std.specs.List.{AllByRecursion};
ghost use Rattle.std.specs.Option.{IfSome, IfNone};
ghost use Rattle.aig_circuit.specs.Wellformed.{IsAmong};
ghost use Rattle.aig_tables.specs.Parts.Marks.{is_marked};
ghost use Rattle.aig_topo.specs.Order.{gates_under};
ghost use Rattle.aig_topo.specs.Progress.{has_gate};

use crate::index::GateIndex;
use crate::lists::Lists;
use crate::steps::Steps;
use aig_circuit::{Circuit, LARGEST, OutOfMemory};
use std::alloc::{AllocError, Global};
use std::marker::Model;

/// An order of gates that is being made: the positions of the gates that are taken, how many
/// operands each gate still waits for, and how many steps were made.
#[derive(Drop)]
pub struct Order {
    positions: Vec<u32>,
    taken: usize,
    /// A bit for each gate, set once it is taken: 64 to a word, so that they stay in the cache.
    marks: Vec<u64>,
    /// How many operands each gate waits for, at most 2.
    waiting: Vec<u8>,
    /// How many operands were counted down.
    counted: u64,
}

impl Model for Order {
    ghost use Rattle.std.specs.Prelude.{take, ◌+◌};
    ghost use Rattle.aig_topo.specs.Progress.{Progress, progress_code, IsCounted};

    ghost Value = { Progress };

    ghost coded = { progress_code };

    ghost view = { λ o. record {
      list = take o.taken o.positions.items;
      waiting = o.waiting.items;
      steps = o.taken + o.counted;
    } };

    ghost invariant = { λ o. IsCounted o.positions.items o.taken o.marks.items
        o.waiting.items o.counted };
}

#[inline(always)]
fn has_mark(marks: &[u64], number: usize) -> bool
    requires { number / 64 < length marks.now }
    ensures { result ≡ is_marked marks.now number }
{
    marks[number / 64] >> (number % 64) & 1 == 1
}

impl Order {
    /// The steps of an order are counted before they are made, as many as it can take.
    #[tactic(auto, using(crate::proofs::Ordering::Counted::begins))]
    pub(crate) fn waiting_for(
        alloc: Global,
        waiting: Vec<u8>,
        steps: &mut Steps,
    ) -> Result<Self, AllocError>
        requires few { length waiting.items ≤ LARGEST }
        requires at_most_two { AllByRecursion (λ w. w ≤ 2) waiting.items }
        ensures begun { IfOk result (λ order. order
            ≡ record { list = []; waiting = waiting.items; steps = 0 }) }
        ensures counted { steps.new.count ≡ steps.old.count + 3 * length waiting.items }
    {
        steps.add(3 * waiting.len() as u64);
        Ok(Order {
            positions: vec![in alloc; 0; waiting.len()]?,
            taken: 0,
            marks: vec![in alloc; 0; waiting.len().div_ceil(64)]?,
            waiting,
            counted: 0,
        })
    }

    /// No gate taken: each waits for its operands over gates, left and right counted apart.
    pub fn new(alloc: Global, circuit: &Circuit, steps: &mut Steps) -> Result<Self, OutOfMemory>
        requires { length circuit.now.gates ≤ LARGEST }
        ensures begun { IfOk result (λ order. order ≡ record {
          list = [];
          waiting = map (λ g. length (gates_under circuit.now.gates g)) circuit.now.gates;
          steps = 0;
        }) }
        ensures counted { OnOk result
            (steps.new.count ≡ steps.old.count + 3 * length circuit.now.gates) }
        ensures few { steps.new.count ≤ steps.old.count + 3 * length circuit.now.gates }
    {
        let index = GateIndex::new(alloc, circuit)?;
        let (_lists, counts) = Lists::new(alloc, circuit, &index)?;
        Ok(Order::waiting_for(alloc, counts, steps)?)
    }

    /// The positions of the gates, in the order in which they were taken.
    pub fn list(&self) -> &[u32]
        ensures { result.now ≡ self.now.list }
    {
        &self.positions[..self.taken]
    }

    /// How many steps were made.
    pub fn steps(&self) -> u64
        ensures value { result ≡ self.now.steps }
        ensures few { result ≤ 3 * length self.now.waiting }
    {
        self.taken as u64 + self.counted
    }

    /// How many operands the gate waits for.
    pub fn waiting(&self, gate: u32) -> u32
        requires { gate < length self.now.waiting }
        ensures { result ≡ slice_index self.now.waiting gate }
    {
        u32::from(self.waiting[gate as usize])
    }

    #[inline(always)]
    pub(crate) fn has(&self, gate: u32) -> bool
        requires { gate < length self.now.waiting }
        ensures { result ≡ has_gate self.now.list gate }
    {
        has_mark(&self.marks, gate as usize)
    }

    /// Takes a gate that waits for nothing, as one step.
    #[inline(always)]
    pub fn take(&mut self, gate: u32)
        requires there { gate < length self.old.waiting }
        requires left { ¬ IsAmong gate self.old.list }
        requires ready { slice_index self.old.waiting gate ≡ 0 }
        ensures { self.new
            ≡ record self.old { list = self.old.list ++ gate ∷ []; steps = self.old.steps + 1 } }
    {
        self.positions[self.taken] = gate;
        self.taken += 1;
        self.marks[gate as usize / 64] |= 1 << (gate % 64);
    }

    /// Counts down what a gate waits for to what is left then, as one step. What it waited for is not
    /// read: a read would be waited for, a write is not.
    #[inline(always)]
    pub fn count_down(&mut self, gate: u32, left: u8)
        requires there { gate < length self.old.waiting }
        requires waiting { slice_index self.old.waiting gate ≡ left + 1 }
        ensures waiting { self.new.waiting ≡ slice_set self.old.waiting gate left }
        ensures steps { self.new.steps ≡ self.old.steps + 1 }
        ensures list { self.new.list ≡ self.old.list }
    {
        self.waiting[gate as usize] = left;
        self.counted += 1;
    }

    /// The first gate that is not taken.
    pub fn first_left(&self) -> Option<usize>
        ensures none { IfNone result ((g : ℕ) → g < length self.now.waiting
            → IsAmong g self.now.list) }
        ensures there { IfSome result (λ gate. gate < length self.now.waiting) }
        ensures left { IfSome result (λ gate. ¬ IsAmong gate self.now.list) }
        ensures first { IfSome result (λ gate. (g : ℕ) → g < gate → IsAmong g self.now.list) }
    {
        for gate in 0..self.positions.len() {
            if !self.has(gate as u32) {
                return Some(gate);
            }
        }
        None
    }
}
