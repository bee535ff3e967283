//! The first gate that depends on a cycle, found depth first: no order of the gates is made.
ghost use Rattle.std.specs.Prelude.{◌≡◌, ◌≢◌, ◌+◌, ◌-◌, ◌*◌, ◌<◌, ◌≤◌, ℕ, [], ◌∷◌};
ghost use Rattle.std.specs.Prelude.{◌++◌, length, map, take, true, false};
ghost use Rattle.std.specs.Prelude.{slice_index, slice_set, slice_get, IfOk, OnOk, OnErr, IfNone};
ghost use Rattle.std.specs.Option.{IfSome, unwrap_or};
ghost use Rattle.std.specs.List.{position, sum};
ghost use Rattle.std.specs.FinMap.{get};
ghost use Rattle.aig_circuit.specs.Literal.{variable_of};
ghost use Rattle.aig_circuit.specs.Wellformed.{IsAmong};
ghost use Rattle.aig_topo.specs.Order.{depends_on_cycle};
ghost use Rattle.aig_topo.specs.Cycle.{pair_of, needs_in, comes_to_end};
ghost use Rattle.aig_topo.specs.Cycle.{IsAtEnd, IsSearch, IsRisen};

use crate::index::GateIndex;
use crate::steps::Steps;
use aig_circuit::{Circuit, LARGEST, Lit};
use aig_tables::VarMap;
use std::alloc::{AllocError, Global};

/// The places of a gate's operands: the position of the gate that an operand is over, or the number
/// of gates where it is over none. Eight bytes, so that what is looked at again and again stays in
/// the processor's cache.
#[derive(Clone, Copy)]
struct Pair {
    left: u32,
    right: u32,
}

/// A gate that was not looked at yet.
const UNSEEN: u8 = 0;
/// A gate on the way.
const MET: u8 = 1;
/// A gate from which each way comes to an end.
const DONE: u8 = 2;

/// A search that goes from gate to operand, while there is one that is not done, and then back.
#[derive(Drop)]
struct Search {
    operands: Vec<Pair>,
    /// What is known of each gate; after the last one the place of no gate, which is done.
    states: Vec<u8>,
    /// The gates from the first one to that which is looked at.
    way: Vec<u32>,
}

fn operand_position(index: &VarMap<u32>, literal: Lit, none: u32) -> u32
    ensures { result ≡ unwrap_or (get index.now (variable_of literal)) none }
{
    index.get(literal.var()).unwrap_or(none)
}

fn all_pairs(alloc: Global, circuit: &Circuit) -> Result<Vec<Pair>, AllocError>
    requires { length circuit.now.gates ≤ LARGEST }
    ensures { IfOk result (λ all. all.items ≡ map (pair_of circuit.now.gates) circuit.now.gates) }
{
    let gates = circuit.gates.as_slice();
    let index = GateIndex::new(alloc, circuit)?;
    let none = gates.len() as u32;
    let mut all = Vec::with_capacity(alloc, gates.len())?;
    for gate in gates {
        all.push(Pair {
            left: operand_position(&index.positions, gate.left, none),
            right: operand_position(&index.positions, gate.right, none),
        })?;
    }
    Ok(all)
}

impl Search {
    fn new(alloc: Global, circuit: &Circuit) -> Result<Self, AllocError>
        requires { length circuit.now.gates ≤ LARGEST }
        ensures operands { IfOk result (λ search.
            search.operands.items ≡ map (pair_of circuit.now.gates) circuit.now.gates) }
        ensures way { IfOk result (λ search. search.way.items ≡ []) }
        ensures states { IfOk result (λ search. sum search.states.items ≡ 2) }
        ensures search { IfOk result (λ search. IsSearch search) }
    {
        let operands = all_pairs(alloc, circuit)?;
        let count = operands.len();
        let mut states = vec![in alloc; UNSEEN; count + 1]?;
        states[count] = DONE;
        Ok(Search {
            operands,
            states,
            way: Vec::with_capacity(alloc, count)?,
        })
    }

    #[inline(always)]
    fn looked_at(&self) -> Option<u32>
        ensures some { IfSome result (λ gate. IsAtEnd self.now.way.items gate) }
        ensures none { IfNone result (self.now.way.items ≡ []) }
    {
        self.way.last().copied()
    }

    /// An operand of a gate that is not done, the left one first.
    #[inline(always)]
    fn open_operand(&self, gate: u32) -> Option<u32>
        requires there { gate < length self.now.operands.items }
        requires search { IsSearch self.now }
        ensures there { IfSome result (λ next. next < length self.now.operands.items) }
        ensures needed { IfSome result (λ next.
            IsAmong next (needs_in self.now.operands.items gate)) }
        ensures open { IfSome result (λ next. slice_index self.now.states.items next ≢ DONE) }
        ensures none { IfNone result ((h : ℕ) → IsAmong h (needs_in self.now.operands.items gate)
            → (h < length self.now.operands.items) × (slice_index self.now.states.items h ≡ DONE)) }
    {
        let pair = self.operands[gate as usize];
        if self.states[pair.left as usize] != DONE {
            return Some(pair.left);
        }
        if self.states[pair.right as usize] != DONE {
            return Some(pair.right);
        }
        None
    }

    /// Goes on to a gate that was not looked at yet, as one step.
    #[inline(always)]
    fn enter(&mut self, gate: u32, steps: &mut Steps) -> Result<(), AllocError>
        requires there { gate < length self.old.operands.items }
        requires search { IsSearch self.old }
        requires unseen { slice_index self.old.states.items gate ≡ UNSEEN }
        requires needed { (user : ℕ) → IsAtEnd self.old.way.items user
            → IsAmong gate (needs_in self.old.operands.items user) }
        ensures search { OnOk result (IsSearch self.new) }
        ensures way { OnOk result (self.new.way.items ≡ self.old.way.items ++ gate ∷ []) }
        ensures states { OnOk result (self.new.states.items
            ≡ slice_set self.old.states.items gate MET) }
        ensures rises { OnOk result (IsRisen self.old.states.items self.new.states.items) }
        ensures by_one { OnOk result (sum self.new.states.items ≡ sum self.old.states.items + 1) }
        ensures operands { OnOk result (self.new.operands.items ≡ self.old.operands.items) }
        ensures step { OnOk result (steps.new.count ≡ steps.old.count + 1) }
        ensures no_step { OnErr result (steps.new.count ≡ steps.old.count) }
    {
        self.states[gate as usize] = MET;
        self.way.push(gate)?;
        steps.add(1);
        Ok(())
    }

    /// Goes back from a gate, which is done, as one step.
    #[inline(always)]
    fn leave(&mut self, gate: u32, steps: &mut Steps)
        requires search { IsSearch self.old }
        requires at_end { IsAtEnd self.old.way.items gate }
        requires served { (h : ℕ) → IsAmong h (needs_in self.old.operands.items gate)
            → (h < length self.old.operands.items) × (slice_index self.old.states.items h ≡ DONE) }
        ensures search { IsSearch self.new }
        ensures way { self.new.way.items ≡ take (length self.old.way.items - 1) self.old.way.items }
        ensures rises { IsRisen self.old.states.items self.new.states.items }
        ensures by_one { sum self.new.states.items ≡ sum self.old.states.items + 1 }
        ensures operands { self.new.operands.items ≡ self.old.operands.items }
        ensures step { steps.new.count ≡ steps.old.count + 1 }
    {
        self.states[gate as usize] = DONE;
        self.way.pop();
        steps.add(1);
    }

    /// Looks at all that a gate depends on, and answers whether it depends on a cycle.
    fn leads_to_cycle(&mut self, root: u32, steps: &mut Steps) -> Result<bool, AllocError>
        requires there { root < length self.old.operands.items }
        requires search { IsSearch self.old }
        requires way { self.old.way.items ≡ [] }
        ensures cyclic { IfOk result (λ found. found ≡ true
            → (n : ℕ) → comes_to_end n (needs_in self.old.operands.items) root ≡ false) }
        ensures done { IfOk result (λ found. found ≡ false
            → slice_index self.new.states.items root ≡ DONE) }
        ensures search { OnOk result (IsSearch self.new) }
        ensures way { IfOk result (λ found. found ≡ false → self.new.way.items ≡ []) }
        ensures rises { OnOk result (IsRisen self.old.states.items self.new.states.items) }
        ensures operands { OnOk result (self.new.operands.items ≡ self.old.operands.items) }
        ensures steps { OnOk result (steps.new.count + sum self.old.states.items
            ≡ steps.old.count + sum self.new.states.items) }
        ensures few { OnErr result (steps.new.count + sum self.old.states.items
            ≤ steps.old.count + 2 * length self.old.operands.items + 2) }
    {
        if self.states[root as usize] == DONE {
            return Ok(false);
        }
        self.enter(root, steps)?;
        while let Some(gate) = self.looked_at() {
            let Some(next) = self.open_operand(gate) else {
                self.leave(gate, steps);
                continue;
            };
            if self.states[next as usize] == MET {
                return Ok(true);
            }
            self.enter(next, steps)?;
        }
        Ok(false)
    }
}

/// The position of the first gate that depends on a cycle. Each gate that the search comes to is
/// one step, and so is each that it leaves: it comes to none twice, and where there is no cycle
/// each gate is two steps.
pub fn search_for_cycle(
    alloc: Global,
    circuit: &Circuit,
    steps: &mut Steps,
) -> Result<Option<usize>, AllocError>
    requires { length circuit.now.gates ≤ LARGEST }
    ensures first { IfOk result (λ first. first
        ≡ position (depends_on_cycle circuit.now.gates) circuit.now.gates) }
    ensures few { steps.new.count ≤ steps.old.count + 2 * length circuit.now.gates }
    ensures each { IfOk result (λ first. first ≡ None
        → steps.new.count ≡ steps.old.count + 2 * length circuit.now.gates) }
{
    let mut search = Search::new(alloc, circuit)?;
    for gate in 0..circuit.gates.len() {
        if search.leads_to_cycle(gate as u32, steps)? {
            return Ok(Some(gate));
        }
    }
    Ok(None)
}
